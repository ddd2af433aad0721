//! Laws of the holds on inodes, each carried by a function that does nothing.
ghost use Rattle.kr_tree.specs.Holds.{ChangesAreAlikeWithFewerHolds, HoldsAreCounted, TreesAreKeptWithFewerHolds, TreesLookAlikeWithFewerHolds};

/// No inode is held more often than all are, and each change adds to the holds in all what it says: so where one
/// more fits in all, it fits on each inode.
pub fn holds_are_counted()
    ensures { HoldsAreCounted }
{}

/// Each change of a tree does on the tree with fewer holds what it does on the tree.
pub fn changes_are_alike_with_fewer_holds()
    ensures { ChangesAreAlikeWithFewerHolds }
{}

/// With fewer holds a tree looks the same, and has the same room.
pub fn trees_look_alike_with_fewer_holds()
    ensures { TreesLookAlikeWithFewerHolds }
{}

/// A tree that is kept is kept with fewer holds.
pub fn trees_are_kept_with_fewer_holds()
    ensures { TreesAreKeptWithFewerHolds }
{}

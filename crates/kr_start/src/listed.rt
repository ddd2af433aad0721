//! Laws of trees that were read and settled, each carried by a function that does nothing.
ghost use Rattle.kr_start.specs.ListedLaws.{GrownTreesLast, ReadTreesLast, SettledTreesLast};

/// What a listing gives can last, and has numbers left for settling.
pub fn read_trees_last()
    ensures { ReadTreesLast }
{}

/// A tree in which the user made names can last, where it could before.
pub fn grown_trees_last()
    ensures { GrownTreesLast }
{}

/// And so can the tree that settling leaves.
pub fn settled_trees_last()
    ensures { SettledTreesLast }
{}

//! Laws of settled bindings, each carried by a function that does nothing.
ghost use Rattle.kr_mounts.specs.Growth.{GrownTreesHaveAllBefore, SettlingMakesNamesAlone};
ghost use Rattle.kr_mounts.specs.Order.{BindingsAreInOrder};
ghost use Rattle.kr_mounts.specs.Standing.{SettledMountsStand};

/// Settling makes names in the tree and changes nothing else, whatever it comes to.
pub fn settling_makes_names_alone()
    ensures { SettlingMakesNamesAlone }
{}

/// The bindings that count stand in the order of the numbers of their names, and no two at one location.
pub fn bindings_are_in_order()
    ensures { BindingsAreInOrder }
{}

/// A tree in which names were made has all that was there before, as it was; each name takes one inode number and one
/// serial of its directory, and nothing is held.
pub fn grown_trees_have_all_before()
    ensures { GrownTreesHaveAllBefore }
{}

/// Settled mounts stand in the tree that is left, as they were settled, where bindings have their numbers as indices. The
/// names of each location lead to its mount's source. The user reaches sources by their host texts, and each mount point
/// has its name below the host text of its directory, as the texts of the table give it.
pub fn settled_mounts_stand()
    ensures { SettledMountsStand }
{}

//! Laws of the process directory's names and numbers, each carried by a function that does nothing.
ghost use Rattle.kr_procfs.specs.Decimals.{NamesAndNumbersAreInverse};
ghost use Rattle.kr_procfs.specs.Objects.{FoundUnderOwnNames, NamesStandForOne, InodesAreApart, SerialsRise};

/// A number is named by its decimal text alone, and that names it.
pub fn names_and_numbers_are_inverse()
    ensures { NamesAndNumbersAreInverse }
{}

/// A name in a directory of the process directory stands for one object.
pub fn names_stand_for_one()
    ensures { NamesStandForOne }
{}

/// Every process directory shows an object under its own name.
pub fn found_under_own_names()
    ensures { FoundUnderOwnNames }
{}

/// No two objects have one inode number.
pub fn inodes_are_apart()
    ensures { InodesAreApart }
{}

/// Serials rise along each directory: `self` and then processes by their numbers, `cwd`, `root`, `exe` and `fd`,
/// and descriptors by their numbers.
pub fn serials_rise()
    ensures { SerialsRise }
{}

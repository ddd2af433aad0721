//! Laws of what calls are told of their paths, each carried by a function that does nothing.
ghost use Rattle.law_walks.specs.Facts.{FoundIsToldAlike, LastsAreToldAlike, NamesAreToldAlike};

/// Of what was found the plain kernel is told the same by the host text of its guest text: the object, and of what is
/// no directory the entry that an opening remembers.
pub fn found_is_told_alike<X>()
    ensures { FoundIsToldAlike X }
{}

/// Of an entry that is taken away or made the plain kernel is told the same by the host text of its directory and its
/// name; but a name at which a mount stands is a mount point's.
pub fn names_are_told_alike<X>()
    ensures { NamesAreToldAlike X }
{}

/// Of a path that ends with `.` or `..`, or at the root, the plain kernel is told the same.
pub fn lasts_are_told_alike<X>()
    ensures { LastsAreToldAlike X }
{}

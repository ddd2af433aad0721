//! Laws of the definitions, each carried by a function that does nothing.
ghost use Rattle.pt_ident.specs.Laws.{GroupsAreReadBack, NobodyBecomesPrivileged, RefusedChangeNothing, StatShowsTheOwner, UnprivilegedMakeNothing};
ghost use Rattle.pt_ident.specs.Owners.{ModesKeepKinds, OwnersChange, ThreeChanges};

/// A call without privilege makes no number that wasn't there.
pub fn unprivileged_make_nothing()
    ensures { UnprivilegedMakeNothing }
{}

/// Whoever has no number 0 keeps to the first numbers, by whatever calls.
pub fn nobody_becomes_privileged()
    ensures { NobodyBecomesPrivileged }
{}

/// A call that answers an error changes nothing.
pub fn refused_change_nothing()
    ensures { RefusedChangeNothing }
{}

/// Groups that are written into memory are read out of it as they were.
pub fn groups_are_read_back()
    ensures { GroupsAreReadBack }
{}

/// What is shown of a file is the structure of the same file with the owner and the group that are to be seen.
pub fn stat_shows_the_owner()
    ensures { StatShowsTheOwner }
{}

/// A change shows at the inode of which it is said and nowhere else, and a number of all ones leaves the one that is there.
pub fn owners_change()
    ensures { OwnersChange }
{}

/// A file keeps its kind, and of a mode that is said its low 12 bits alone are shown.
pub fn modes_keep_kinds()
    ensures { ModesKeepKinds }
{}

/// An owner, another group and a mode, said of one inode one after the other, and what is shown of it and of another.
pub fn three_changes()
    ensures { ThreeChanges }
{}

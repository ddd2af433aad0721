//! Laws of the rules, each carried by a function that does nothing.
ghost use Rattle.kr_calm.specs.Laws.{EndsBreakTheFourth, ForeseenCallsMakeIt, GuestNamesGoByMounts, MarksAreKept, MarksStayRead, NewProgramsBreakNone, OtherCallsAreUnjudged, OwnersBreakNone, QuietChangesBreakNone, RefusedCallsBreakNone, StepsAreEnough, UnjudgedBreakNone};
ghost use Rattle.kr_calm.specs.Noted.{ListsAreNoted};
ghost use Rattle.kr_calm.specs.Prospects.{RowsMakeAtZero};

/// A directory is found to be at or below another exactly where the way up comes to that.
pub fn steps_are_enough()
    ensures { StepsAreEnough }
{}

/// Changes that take nothing away from what has a name, and bring no new place into use, break none of the rules on changes.
pub fn quiet_changes_break_none<T, X>()
    ensures { QuietChangesBreakNone T X }
{}

/// Nor does a call that answers an error.
pub fn refused_calls_break_none<T, X>()
    ensures { RefusedCallsBreakNone T X }
{}

/// A marked byte that was read stays read, whatever a call reads after it.
pub fn marks_stay_read<A>()
    ensures { MarksStayRead A }
{}

/// What stands above a place by guest names stands above it by host names, or above a mount.
pub fn guest_names_go_by_mounts()
    ensures { GuestNamesGoByMounts }
{}

/// What unlinkat, renameat2 and chmod change is known from what they are told of their paths and from whether they answer 0.
pub fn rows_make_at_zero()
    ensures { RowsMakeAtZero }
{}

/// Changes that no rule looks at break none of the rules on changes.
pub fn unjudged_changes_break_none<T, X>()
    ensures { UnjudgedBreakNone T X }
{}

/// Nor do those that put a new program in place of another.
pub fn new_programs_break_none<T, X>()
    ensures { NewProgramsBreakNone T X }
{}

/// The end of a process breaks the fourth rule alone, exactly where its directory is in use behind it.
pub fn ends_break_the_fourth<T, X>()
    ensures { EndsBreakTheFourth T X }
{}

/// A call that takes names away, or changes modes, makes what is foreseen of it where it answers 0, and else changes nothing.
pub fn foreseen_calls_make_it()
    ensures { ForeseenCallsMakeIt }
{}

/// A call on owners breaks none of the rules on changes.
pub fn owners_break_none<T>()
    ensures { OwnersBreakNone T }
{}

/// Any other call makes no change that a rule looks at, or its caller's end alone.
pub fn other_calls_are_unjudged()
    ensures { OtherCallsAreUnjudged }
{}

/// The flag of marked bytes in the memory of a caller that goes on is that of all that its call read.
pub fn marks_are_kept<T>()
    ensures { MarksAreKept T }
{}

/// A call comes to the same where the list is noted that it reads before it ends its caller; and there it reads nothing more.
pub fn lists_are_noted()
    ensures { ListsAreNoted }
{}

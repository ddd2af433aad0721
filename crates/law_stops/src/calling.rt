//! Laws of calls with their stops, each carried by a function that does nothing.
ghost use Rattle.law_stops.specs.Beginning.{ProgramsGoTogether, ProgramsReadNoMark};
ghost use Rattle.law_stops.specs.Calls.{FakedCallsGoTogether, IdentityCallsGoTogether, KernelsCallsGoTogether};

/// A call that the kernels carry out keeps both machines together, where it does so without an identity and its answer is edited alike.
pub fn kernels_calls_go_together()
    ensures { KernelsCallsGoTogether }
{}

/// And so does a call on users and groups, which both watchers answer.
pub fn identity_calls_go_together()
    ensures { IdentityCallsGoTogether }
{}

/// So every call without a path, and one that isn't decoded, keeps them together, where it breaks no calm rule.
pub fn faked_calls_go_together()
    ensures { FakedCallsGoTogether }
{}

/// And an execve(2), where a new program begins on both machines or on none: it is told who it is on both.
pub fn programs_go_together()
    ensures { ProgramsGoTogether }
{}

/// No marked byte is read for that.
pub fn programs_read_no_mark()
    ensures { ProgramsReadNoMark }
{}

//! Laws of calls of execve(2) that are refused for their path or their lists, each carried by a function that does nothing.
ghost use Rattle.law_programs.specs.Refusing.{EmptyExecutionsAgree, LostExecutionsAgree, MissingExecutionsAgree, PathsLeadAlike, UnreadExecutionsAgree};

/// A path leads for a tracer where it leads for a kernel with mounts, whether a program stands there or not, or fails with the same error.
pub fn paths_lead_alike<X>()
    ensures { PathsLeadAlike X }
{}

/// Where a tracer's walk fails, a kernel with mounts refuses the call with the error of that.
pub fn lost_executions_agree()
    ensures { LostExecutionsAgree }
{}

/// Where a tracer finds no program where a path leads, so do both kernels, the plain one along its host text, whatever the lists are.
pub fn missing_executions_agree()
    ensures { MissingExecutionsAgree }
{}

/// Where the lists can't be read, both kernels refuse a call with the same error, the plain one along the host text of the path.
pub fn unread_executions_agree()
    ensures { UnreadExecutionsAgree }
{}

/// And so they do along an empty path, which stays as it is.
pub fn empty_executions_agree()
    ensures { EmptyExecutionsAgree }
{}

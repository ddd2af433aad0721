//! Laws of execve(2) on both kernels, each carried by a function that does nothing.
ghost use Rattle.law_programs.specs.Executing.{ExecutionsAgree, ListsFit, PlainExecutionsAgree, RefusedExecutionsAgree};
ghost use Rattle.law_programs.specs.Showing.{StatesAreShownAlike};

/// The lists that are read of a memory are within the limits of a program's lists.
pub fn lists_fit()
    ensures { ListsFit }
{}

/// A plain kernel that is handed the program that runs in the end, with its arguments, loads what a kernel with mounts loads.
pub fn executions_agree()
    ensures { ExecutionsAgree }
{}

/// Where a tracer finds an error in place of a program, it is the error of a kernel with mounts.
pub fn refused_executions_agree()
    ensures { RefusedExecutionsAgree }
{}

/// So it does of a program that is no script where it is handed the call's own lists.
pub fn plain_executions_agree()
    ensures { PlainExecutionsAgree }
{}

/// Of two states that are equal but for mounts, the second of a plain kernel, what these premises ask is shown alike.
pub fn states_are_shown_alike()
    ensures { StatesAreShownAlike }
{}

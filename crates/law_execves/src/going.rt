//! Laws of execve(2) with its stops, each carried by a function that does nothing.
ghost use Rattle.law_execves.specs.Going.{CancelledExecvesGoTogether, EnteredExecvesGoTogether};
ghost use Rattle.law_execves.specs.Rewriting.{ExecvesAreRewritten};

/// An execve that the tracer cancels with the error of the kernel with mounts keeps two machines together, where it breaks no calm rule.
pub fn cancelled_execves_go_together<S>()
    ensures { CancelledExecvesGoTogether S }
{}

/// And so does one in place of which the plain kernel finds another execve that comes to the same: the same error, or the same program
/// from a file whose index the tracer has.
pub fn entered_execves_go_together<S>()
    ensures { EnteredExecvesGoTogether S }
{}

/// The tracer puts the host text of where the path leads in its place, cancels the call where its walk fails, and lets an empty path be.
pub fn execves_are_rewritten()
    ensures { ExecvesAreRewritten }
{}

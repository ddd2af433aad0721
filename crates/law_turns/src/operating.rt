//! Laws of the calls of states that match, each carried by a function that does nothing.
ghost use Rattle.law_turns.specs.Calls.{CallsComeAlike, RefusedCallsComeAlike};
ghost use Rattle.law_turns.specs.Lasting.{CallsLast, RefusedCallsLast};
ghost use Rattle.law_turns.specs.Operating.{CallsKeepMatches};
ghost use Rattle.law_turns.specs.Pathless.{PathlessCallsComeAlike};
ghost use Rattle.law_turns.specs.Registers.{CallsKeepRegisters};

/// A call on equal requests and on what is told alike of its paths is answered alike, and keeps a match, where it is calm and names that it moves stay inside.
pub fn calls_keep_matches()
    ensures { CallsKeepMatches }
{}

/// A call that isn't decoded is refused alike, and keeps a match.
pub fn refused_calls_come_alike()
    ensures { RefusedCallsComeAlike }
{}

/// Behind its first stop a call other than execve(2) comes to the same in states that match, where the same is told of its paths.
pub fn calls_come_alike()
    ensures { CallsComeAlike }
{}

/// So does a calm call without a path.
pub fn pathless_calls_come_alike()
    ensures { PathlessCallsComeAlike }
{}

/// A call that ends nobody and begins no program leaves the registers of its caller, but for its answer and where it goes on.
pub fn calls_keep_registers()
    ensures { CallsKeepRegisters }
{}

/// A call that is decoded, other than execve(2), leaves a lawful state with what lasts, on either kernel.
pub fn calls_last()
    ensures { CallsLast }
{}

/// So does one that isn't decoded.
pub fn refused_calls_last()
    ensures { RefusedCallsLast }
{}

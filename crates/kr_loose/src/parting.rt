//! A law of instructions and the call that they end with, carried by a function that does nothing.
ghost use Rattle.kr_loose.specs.Parting.{RunsPartAtCalls};

/// Where no byte is marked, instructions that end with a call are those before it, and then the call by itself.
pub fn runs_part_at_calls()
    ensures { RunsPartAtCalls }
{}

//! Laws of starts, each carried by a function that does nothing.
ghost use Rattle.law_machines.specs.FakedStarts.{FakedStartsCanRun};
ghost use Rattle.law_machines.specs.Starts.{StartsCanRun};
ghost use Rattle.law_machines.specs.Tables.{OpeningsAreMadeOfBytes};

/// Mounts on which a start can begin are made of bytes, and so are the texts that a tracer goes by.
pub fn openings_are_made_of_bytes()
    ensures { OpeningsAreMadeOfBytes }
{}

/// Where a start breaks no calm rule, both machines begin with all that runs rest on, or are refused with the same error.
pub fn starts_can_run()
    ensures { StartsCanRun }
{}

/// So they do where processes are told an identity.
pub fn faked_starts_can_run()
    ensures { FakedStartsCanRun }
{}

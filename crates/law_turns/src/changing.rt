//! Laws of the changes of calls in states that match, each carried by a function that does nothing.
ghost use Rattle.law_turns.specs.Changing.{ChangesKeepMatches, DeathsKeepMatches, MovesKeepMatches};
ghost use Rattle.law_turns.specs.Registers.{ChangesKeepRegisters};

/// The changes of a calm call keep a match, where they move no name and each new place stands before it comes into use.
pub fn changes_keep_matches()
    ensures { ChangesKeepMatches }
{}

/// So they do where names move, each between directories that no source and no mount point parts.
pub fn moves_keep_matches()
    ensures { MovesKeepMatches }
{}

/// So does the death of a process by a signal, where it breaks no calm rule.
pub fn deaths_keep_matches()
    ensures { DeathsKeepMatches }
{}

/// Changes that end nobody and give no caller another program leave the registers of whoever lives.
pub fn changes_keep_registers()
    ensures { ChangesKeepRegisters }
{}

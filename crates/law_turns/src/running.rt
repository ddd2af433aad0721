//! Laws of the runs of machines that match, each carried by a function that does nothing.
ghost use Rattle.law_turns.specs.Runs.{QuietTurnsGoTogether, RunsComeAlike};

/// A turn in which no call is made, and that breaks no calm rule, keeps a match of lawful states.
pub fn quiet_turns_go_together<S, T>()
    ensures { QuietTurnsGoTogether S T }
{}

/// Where each turn that breaks no calm rule keeps such a match, a calm run and that of the plain machine come to the same.
pub fn runs_come_alike<S, T, V>()
    ensures { RunsComeAlike S T V }
{}

//! Laws of whole turns and runs, each carried by a function that does nothing.
ghost use Rattle.law_stops.specs.Runs.{FakedRunsComeAlike, FakedTurnsGoTogether};
ghost use Rattle.law_stops.specs.Whole.{AllCallsGoTogether, WatchersStartAlike};

/// Both watchers start with the same identities.
pub fn watchers_start_alike()
    ensures { WatchersStartAlike }
{}

/// Where calls along paths and those of new programs keep both machines together, all calls do.
pub fn all_calls_go_together()
    ensures { AllCallsGoTogether }
{}

/// Where each call keeps both machines together, each turn does that breaks no calm rule.
pub fn faked_turns_go_together()
    ensures { FakedTurnsGoTogether }
{}

/// Then a calm run and the watched one come to the same bytes, the same end, the same status and the same tree.
pub fn faked_runs_come_alike()
    ensures { FakedRunsComeAlike }
{}

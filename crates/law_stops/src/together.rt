//! Laws of turns and runs of both machines, each carried by a function that does nothing.
ghost use Rattle.law_stops.specs.Together.{TracedRunsComeAlike, TracedTurnsGoTogether};

/// Where each call keeps both machines together, each turn does that breaks no calm rule.
pub fn traced_turns_go_together<S>()
    ensures { TracedTurnsGoTogether S }
{}

/// Then a calm run and the watched one come to the same bytes, the same end, the same status and
/// the same tree.
pub fn traced_runs_come_alike<S>()
    ensures { TracedRunsComeAlike S }
{}

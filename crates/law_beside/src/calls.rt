//! Laws of calls and of picks, each carried by a function that does nothing.
ghost use Rattle.law_beside.specs.Calls.{CallsKnowLayouts, PlainCallsComeBeside};
ghost use Rattle.law_beside.specs.Picks.{PicksAreBeside};

/// Calls know layouts alone of what processes compute on.
pub fn calls_know_layouts()
    ensures { CallsKnowLayouts }
{}

/// A call of a process that computes on the same comes to the same.
pub fn plain_calls_come_beside()
    ensures { PlainCallsComeBeside }
{}

/// The same processes are ready and picked.
pub fn picks_are_beside<S>()
    ensures { PicksAreBeside S }
{}

//! Laws of turns, each carried by a function that does nothing.
ghost use Rattle.kr_turns.specs.Laws.{CallsAreThreeSteps, PlainCallsLeaveShape, TargetsAreTold, TurnsAreFunctions, WatchedCallsAreThreeSteps};
ghost use Rattle.kr_steps.specs.kr_stops.Watching.{watching};

use kr_steps::below::Stops;

/// Where the relations of a watcher are graphs of functions, a turn is the definition's by these functions. So it is where they are graphs on a
/// part of what the watcher keeps.
pub fn turns_are_functions<S: Stops>()
    ensures { TurnsAreFunctions (λ x. x) (watching S.enters S.exits S.bears S.forgets) }
{}

/// The call of a turn is its three steps, made one after the other.
pub fn calls_are_three_steps<S>()
    ensures { CallsAreThreeSteps S }
{}

/// So it is with a watcher that is told by its relations.
pub fn watched_calls_are_three_steps<S: Stops>()
    ensures { WatchedCallsAreThreeSteps (watching S.enters S.exits S.bears S.forgets) }
{}

/// The target of a call that looks up one path, or has none, is a function of what it is told of that path and of what it knows.
pub fn targets_are_told()
    ensures { TargetsAreTold }
{}

/// A call leaves the shape of the tree, and the user, where its caller's registers hold none that can alter the shape.
pub fn plain_calls_leave_shape()
    ensures { PlainCallsLeaveShape }
{}

//! Laws of loose runs, each carried by a function that does nothing.
ghost use Rattle.kr_core.specs.kr_turns.kr_stops.Watching.{watching};
ghost use Rattle.kr_loose.specs.Laws.{QuietIsOfParts, StepsAreFunctions};

use kr_core::below::Stops;

/// Where the relations of a watcher are graphs of functions, a step is the definition's by these functions.
pub fn steps_are_functions<S: Stops>()
    ensures { StepsAreFunctions (λ x. x) (watching S.enters S.exits S.bears S.forgets) }
{}

/// Steps are quiet exactly where they are so by a part of what the watcher keeps in which shows what it asks for.
pub fn quiet_is_of_parts<S, Q>()
    ensures { QuietIsOfParts S Q }
{}

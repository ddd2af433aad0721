//! Laws of turns and outcomes, each carried by a function that does nothing.
ghost use Rattle.pt_tracer.specs.kr_stops.Watching.{watching};
ghost use Rattle.kr_loose.specs.kr_turns.Laws.{TurnsAreFunctions};
ghost use Rattle.kr_loose.specs.Laws.{QuietIsOfParts, StepsAreFunctions};
ghost use Rattle.pr_run.specs.Laws.{OutcomesAreToldApart};

use pt_tracer::Graphed;

/// Where the stops of a watcher are functions of a part of what it keeps, turns with it are functions of that part.
pub(crate) fn parts_turn<S: Graphed>()
    ensures { TurnsAreFunctions S.part (watching S.enters S.exits S.bears S.forgets) }
{}

/// And so are steps.
pub(crate) fn parts_step<S: Graphed>()
    ensures { StepsAreFunctions S.part (watching S.enters S.exits S.bears S.forgets) }
{}

/// Steps are quiet by what it keeps exactly where they are so by a part in which shows what it asks for.
pub(crate) fn parts_are_quiet<S: Graphed>()
    ensures { QuietIsOfParts S S.Part }
{}

/// The test by which a case is told is true exactly where both outcomes are equal.
pub fn outcomes_are_told_apart()
    ensures { OutcomesAreToldApart }
{}

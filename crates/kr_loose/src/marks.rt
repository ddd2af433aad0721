//! That a kernel that keeps no marks never marks a byte: laws, each carried by a function that does nothing.
ghost use Rattle.kr_loose.specs.Marks.{ActionsMarkNothing, ChangesMarkNothing, EditsMarkNothing, InstructionsMarkNothing, LooseRunsMarkNothing, NobodyMarks, PlainCallsMarkNothing, ProgramsLoadUnmarked, RunsMarkNothing, StepsMarkNothing, TurnsMarkNothing};

/// What is done on a memory as a tree of actions marks nothing.
pub fn actions_mark_nothing<T>()
    ensures { ActionsMarkNothing T }
{}

/// Nor do instructions.
pub fn instructions_mark_nothing()
    ensures { InstructionsMarkNothing }
{}

/// Nor does the loading of a program.
pub fn programs_load_unmarked()
    ensures { ProgramsLoadUnmarked }
{}

/// Nor do changes, where a new program has no marks.
pub fn changes_mark_nothing<T>()
    ensures { ChangesMarkNothing T }
{}

/// Nor does a call.
pub fn plain_calls_mark_nothing()
    ensures { PlainCallsMarkNothing }
{}

/// Nor does what a watcher may do at a stop.
pub fn edits_mark_nothing()
    ensures { EditsMarkNothing }
{}

/// Where nobody watches, nothing is marked at stops.
pub fn nobody_marks<S>()
    ensures { NobodyMarks S }
{}

/// A turn of a kernel that keeps no marks marks nothing, where its watcher marks nothing at stops.
pub fn turns_mark_nothing<S>()
    ensures { TurnsMarkNothing S }
{}

/// Nor does a run.
pub fn runs_mark_nothing<S>()
    ensures { RunsMarkNothing S }
{}

/// Nor does a step of a loose run.
pub fn steps_mark_nothing<S>()
    ensures { StepsMarkNothing S }
{}

/// Nor does a loose run.
pub fn loose_runs_mark_nothing<S>()
    ensures { LooseRunsMarkNothing S }
{}

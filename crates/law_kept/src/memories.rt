//! Laws of turns, each carried by a function that does nothing.
ghost use Rattle.law_kept.specs.MemoriesApart.{OthersLiveOnInTurns, RestsWhereNoneIsReady, RunsOneThatIsReady};

/// A turn of a process leaves each other living process with all that is its own: its registers and its memory, its descriptors, and
/// where it stands.
pub fn others_live_on_in_turns<S>()
    ensures { OthersLiveOnInTurns S }
{}

/// Where a process is ready a turn runs one of those that are, and it does an instruction at least; a call is one.
pub fn one_that_is_ready_runs()
    ensures { RunsOneThatIsReady }
{}

/// Where none is ready, as where none lives, nothing changes.
pub fn nothing_changes_where_none_is_ready<S>()
    ensures { RestsWhereNoneIsReady S }
{}

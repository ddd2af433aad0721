//! Laws of turns, each carried by a function that does nothing.
ghost use Rattle.law_kept.specs.Turns.{EditsKeepBytes, NobodyWatchesBytes, RunsKeepBytes, TurnsEndWithBytes, TurnsKeepBytes};

/// What is done between calls leaves a state that has bytes.
pub fn turns_end_with_bytes()
    ensures { TurnsEndWithBytes }
{}

/// And so does a whole turn, with a watcher that leaves bytes at its stops.
pub fn turns_keep_bytes<S>()
    ensures { TurnsKeepBytes S }
{}

/// And so does a run, from its first turn to its last.
pub fn runs_keep_bytes<S>()
    ensures { RunsKeepBytes S }
{}

/// Where nobody watches, bytes are left at each stop.
pub fn nobody_watches_bytes<S>()
    ensures { NobodyWatchesBytes S }
{}

/// What a watcher does to the process at a stop leaves bytes, where it puts bytes into its memory.
pub fn edits_keep_bytes()
    ensures { EditsKeepBytes }
{}

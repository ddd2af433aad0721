//! Quiet loose runs, and the runs by turns for which they stand: laws, and no code.
//!
//! What is proved, with the law that carries it:
//!
//! A loose run by single steps and the machine that makes the turns of its slots stand beside each other (`Lags`, `Lagging.antt`): their states are
//! the same but for registers and bytes of processes, and these are the same of each process that runs. Between the stops of a call the loose run is
//! ahead by a first stop, or behind by a second one. A step that is quiet keeps them so and puts the bytes that its turns put, with any watcher that
//! is local (`StepsLag`, `Images.antt`), and so a quiet run comes to the bytes, the end, the status and the tree to which its turns come
//! (`LooseRunsAreTheirImages`).
//!
//! Both are lemmas over a watcher with all that is asked of it (`Whole`, `BelowLemmas.antt`), since no clause ranges over predicates. The laws tell
//! them of the watcher that does nothing (`unwatched_steps_lag`, `unwatched_runs_are_their_images`), of each state to which the turns come in
//! which numbers of processes are their own and no byte is marked. Nothing is told here of the tracer.
#![tactic(auto)]

pub mod laws;

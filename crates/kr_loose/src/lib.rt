//! Loose runs: the watched machine by single steps, between which other processes go on.
//!
//! What is proved, with the law that carries it:
//!
//! A step of a loose run is some instructions of a process, or the first stop of its call, or the call itself, or its second stop
//! (`LooseRun.antt`), as kr_core makes them. `Loose` is a kernel that goes by such steps: `step` makes exactly the definition's step of the process
//! that is picked, whatever steps came before it (`steps`; `HasStepped`, `Going.antt`). Over comes exactly where no process lives, Deadlock exactly
//! where one lives and none is ready, and both change nothing. It asks for fuel, for a kernel in which no memory was wanting, and for fewer than 2^31
//! calls before it, to which it adds one at most (`calls`). `kernel` lends the kernel, and `clear_bytes` forgets the bytes that were put out and nothing
//! else.
//!
//! Where the relations of the watcher are graphs of functions a step is a function (law `steps_are_functions`).
//!
//! A loose run stands for a run by turns (`Slots.antt`). It is quiet where what was told at the first stop of a call holds still as the call is
//! carried out (`Quiet.antt`). `quiet` tells whether the steps so far are, exactly: no code keeps these steps, so the clause speaks of any steps behind
//! which the value stands (`IsBehind`, `Behind.antt`). It stands behind none at first (`behind` of `new`), behind one more after each step (`behind` of
//! `HasStepped`), and behind the same where bytes are forgotten (`behind` of `clear_bytes`). For each call that is begun it keeps how often the shape of
//! the tree and the bytes of files were altered before (`Judging.antt`), and the call is judged as it is carried out.
//!
//! Beside that there are laws on which a match of a loose run and the run that it stands for is to rest. Where no byte is marked, instructions that
//! end with a call part at it (`Parting.antt`, `runs_part_at_calls`); and a kernel that keeps no marks never marks one, in turns and in steps, with a
//! watcher that marks none at stops (`Marks.antt`, `turns_mark_nothing`, `loose_runs_mark_nothing` and the others of `marks`). A call that can wait has
//! no path, and leaves all but that its caller stays at it where it comes to wait (`WaitingCalls.antt`, `waiting_calls_have_no_path`,
//! `waits_leave_all`).
//!
//! And it is said what makes a watcher local (`Local.antt`): that it goes by what it keeps of a process and what is that process's own. Whoever defines a
//! watcher proves it of that. On it law_loose rests, which shows that a quiet loose run comes to what the run comes to for which it stands.
//!
//! Only tested, or not shown: `core_tests` shows the stops of several processes that come apart.
#![tactic(auto)]

pub mod below;
mod judge;
pub mod laws;
mod loose;
pub mod marks;
pub mod parting;
pub mod waits;

pub use loose::Loose;

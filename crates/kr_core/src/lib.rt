//! The kernel of a machine over a view and with a watcher of calls: its first process, its turns and their steps, and what they break of the calm rules.
//!
//! What is proved, with the clause or the law that carries it:
//!
//! The kernel of a machine, over any view and with any watcher. pr_start starts it over mounts, and pr_run runs it.
//!
//! `Kernel::start` comes to exactly the definition, want of memory aside (`Starts`): the state of `start_of`, no turn made, the status 0, and the
//! sixth calm rule told where marks are kept and the walks of the start reached too far; or the error of execve(2). `Kernel::start_judged` tells
//! that rule beside the kernel, whether marks are kept or not (`StartsJudged`).
//!
//! A kernel keeps which of its processes stand between the stops of their calls (`phase`, `last_is_exec`), and goes by single steps: `run_pid` does
//! instructions, `enter` is the first stop of a call, `plain` the call and `leave` its second stop. Each is the definition's step of that process
//! (`moves`; `HasMoved`, `Moving.antt`), and leaves where the others stand as it was. `plain` answers false exactly where the call waits (`waits`); who is
//! born in it runs (`child`). It asks for fewer than 2^31 calls before it.
//!
//! Of each of these steps it is counted whether it made another shape of the tree, and whether it made other bytes of a file, both exactly: a count
//! stays where the shape is what it was, and rises by one where it isn't (`counted`; `IsCounted`, `Counting.antt`; `shape_changes`, `byte_changes`).
//! Only a call makes any. Those of turns are counted, too.
//!
//! `Kernel::turn` is made of these steps. It runs the process that is picked, and that turn is the definition's (`turns`; `HasRun`): state, watcher,
//! status and the rule that was broken first. Over comes exactly where no process lives, Deadlock exactly where one lives and none is ready, and both
//! change nothing. It asks for fuel, for a kernel in which no memory was wanting and all of whose processes run, as they do at the start, and for fewer
//! than 2^31 turns and calls before it; and it leaves all of them running (`running`): one whose call waits runs again, at that call.
//!
//! What its watcher keeps agrees with its tree from the start on (`agrees` of `Kernel::start`; `agreement` of `Stands`), whatever steps come between the
//! stops of a call: what it keeps is free for the caller of a call that was begun and can alter the shape of the tree (`standing`; `AreStanding`).
//!
//! `ready`, `picked`, `living`, `out`, `err`, `status`, `broken` and `tree` tell exactly that of the state, and `clear_bytes` forgets the bytes and nothing
//! else (`Clears`).
//!
//! Only tested, or not shown: `rows` run the hello file and other guests, with marks and without; `core_tests` shows a watcher's stops in their
//! order.
#![tactic(auto)]

pub mod below;
mod kernel;
mod paused;

pub use kernel::{Kernel, Turned};
pub use paused::{Begun, Between, Paused, Phase};

//! A turn: what a watcher of calls may do at their stops, and a call as the kernel carries it out.
//!
//! What is proved, with the clause or the law that carries it:
//!
//! The steps of a turn of a process: instructions, and a call with what a watcher does at its two stops. kr_core makes turns of them.
//!
//! A watcher and the stopped process as it sees it are kr_stops'.
//!
//! `plain_call` decodes the request of a process, walks its paths, carries out its row or puts the new program in place, and tells the caller
//! (`came`, `reach`): exactly the definition, over the state with its mounts told by their numbers (`PlainCall.antt`). Beside that it tells the
//! smallest calm rule that the call broke (`rule`; `plain_rule`).
//!
//! What it hands on says whether its first path led to the root, and to which inode, or which one stands in a path's place (`Target.antt`). Of a
//! call that looks up one path, or has none, that is a function of what it is told and knows (law `targets_are_told`).
//!
//! A turn is made of steps, between which other processes may go on. `run_for` does some instructions (`stretch`), `enter_call` is the first stop
//! of a call (`enters`), `make_call` the call (`call`) and `leave_call` its second stop (`exits`): exactly the definition's steps by the watcher's
//! four relations (`CallSteps.antt`), with the status of a process that ended and the calm rule that was broken; and what lasts of a state lasts
//! (`runs`, `stands`). The call of a turn is its three steps, made one after the other (laws `calls_are_three_steps`,
//! `watched_calls_are_three_steps`). Where memories keep marks, the shelf of a call with a path is marked before its first stop, and a call whose
//! shelf isn't there breaks a rule. Where the relations are graphs of functions the turn is a function (law `turns_are_functions`).
//!
//! A call is told to have altered the shape of the tree, and the bytes of a file, exactly where it did (`altered`; `IsAltered` of kr_perform); the
//! stops leave the tree (`tree`), and instructions leave both (`leaves`), also where one of them kills.
//!
//! What a watcher keeps agrees with the tree before a step and behind it (`agrees`): a call leaves the shape of the tree where its caller's registers
//! hold none that can alter it (law `plain_calls_leave_shape`), and for each other the watcher was freed at the first stop (`frees`). It stays free for
//! that process through the steps of others (`free`), and these leave the process all that is its own (`others`).
//!
//! After want of memory nothing is promised. What a watcher reads of marked bytes at the second stop is judged with the next turn of that
//! process.
//!
//! Only tested, or not shown: `rows` (processes and who waits for them, pipes, deadlock). `Run.antt` has a run as a definition; what is proved of
//! it stands with pr_run.
#![tactic(auto)]

pub mod below;
mod editing;
mod here;
mod judging;
pub mod laws;
mod plain;
mod shelving;
mod steps;
mod target;

pub use editing::register;
pub use kr_steps::below::{Handed, Stops, Tracee, Unwatched};
pub use kr_steps::{picked, ready};
pub use plain::{CallEnd, Plain, plain_call};
pub use steps::{
    After, CallMade, EntryMade, Halt, Stretch, enter_call, leave_call, make_call, run_for,
};

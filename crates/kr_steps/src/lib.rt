//! The steps of a turn, each by itself.
//!
//! What is proved, with the clause or the law that carries it:
//!
//! Steps of a turn, each by itself. kr_turns joins them, and kr_core picks by it.
//!
//! `compute` does `fuel` instructions of a living process in a state, or fewer where one of them is a call or kills it (`computes`), and leaves a
//! state on which calls can go on (`runs`).
//!
//! `request` decodes the call of a living process from its registers and its memory, and notes there what was read of marked bytes (`requested`).
//! What it gives is a request that `kr_perform` takes (`given`, `paths`).
//!
//! `call` makes a call other than execve(2) to its end: `carry_out` of kr_perform, and then the caller is told its answer and goes on behind the
//! call, or stays at it where it waits (`settled`; `IsSettled`). It leaves a state on which calls can go on (`runs`).
//!
//! `kill` ends a living process by the signal of an instruction, whose number is its status (`ends`), and leaves such a state too (`runs`).
//!
//! `ready` answers the number of the process that is ready as the k-th, and `picked` that of the one that a turn runs by its pick. A process is
//! ready that doesn't stay at a call that waited, or whose call need not wait any more by what its pipes and its children are; the definition of
//! this is `ready_processes`, and no memory is read for it. `waits` has the laws of how this fits the operation's own answer.
//!
//! Only tested, or not shown: `rows` (signals, and which of the ready processes runs). In `rows` a guest forks and both processes write, under
//! two schedules.
//!
//! # `waits`
//!
//! Whether a process that stays at its call has to wait still, told by its registers, is the call's own answer.
//!
//! Laws of calls that wait, and no code. Whether a request has to wait is told alike by it and by the registers that it is decoded from
//! (`waits_are_decoded`). A call, other than execve(2), that comes to wait is seen to wait by its caller's registers (`waits_are_seen`). Such a
//! call that came to wait comes to wait again as long as it is seen to wait so, if the same is open under its caller's descriptors, offsets,
//! `O_APPEND` and remembered names aside, and its caller's pages are what they were (`waits_last`). Nothing takes them up.
//!
//! Only tested, or not shown: That this holds of a caller along the turns of others isn't proved.
#![tactic(auto)]

mod answering;
pub mod below;
mod calling;
mod instructions;
mod killing;
mod picking;
mod requesting;
pub mod waits;

pub use answering::{answer, resume, stay};
pub use calling::{Called, call};
pub use instructions::compute;
pub use killing::kill;
pub use kr_perform::{Altered, Carried, carry_out_along};
pub use picking::{picked, ready};
pub use requesting::request;

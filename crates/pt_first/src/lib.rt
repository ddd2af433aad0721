//! The first process of a run in guest terms, before a process lives: what its tracer finds, told to the plain kernel in host terms.
//!
//! What is proved, with the clause or the law that carries it:
//!
//! The first process in guest terms, before a process lives. pr_start takes it up.
//!
//! `first` begins exactly as the definition says, or answers its errno and sets no tag; where memory is wanting the tags are as before (`begins`;
//! `guest_start`): the first working directory, the command, the program behind its scripts, each found by walks over guest texts; its tags are
//! those of the working directory and of the program. `FirstPeeks` tells what a kernel without processes would (`first_peeked`). `first`
//! asks that what its walker remembers agrees with that (`agrees`), and so it does behind it, whatever it answers; the walker's table and pauses are
//! as before (`walker`).
//!
//! The plain kernel can begin with what it finds: the program's path is a text, and the working directory's path leads to a directory
//! (`firsts_can_start`).
//!
//! Only tested, or not shown: Starts worked out by hand, and whole runs.
#![tactic(auto)]

pub mod begun;
pub mod below;
mod command;
mod directory;
mod launcher;
pub mod laws;
pub mod peeks;
mod program;
pub mod starting;

pub use begun::Begun;
pub use peeks::FirstPeeks;
pub use starting::{first, first_by};

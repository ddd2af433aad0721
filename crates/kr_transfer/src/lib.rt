//! Calls of a guest that move bytes between files, pipes, the console and its memory, carried out on the state of a kernel.
//!
//! What is proved, with the clause or the law that carries it:
//!
//! Calls that move bytes between files, pipes, the console and the caller's memory, set the size of a file or list a directory, carried out on a
//! state of kr_ops. A module for each subject has a function for each call.
//!
//! Each answers the outcome of its row and leaves what the row's reply makes of the state (`Performs`), for a state that is lawful for some view.
//! A row may use the memory many times; how far it has come by then is `HasComeTo`.
//!
//! A write tells beside its answer whether the bytes of a file are others behind it (`IsWritten`): what is written is compared with what stands there,
//! in place, up to the first byte that differs, and no copy is kept.
//!
//! For getdents64 `next_listed` finds the entry of a directory behind a place in it, of the tree, of the process directory and of what stands in
//! that; `is_shown` says whether a directory shows any. Since serials rise along each directory, what is found entry by entry is what the row
//! lists at once.
//!
//! Only tested, or not shown: `rows`.
#![tactic(auto)]

pub mod channel;
pub mod entries;
pub mod listing;
mod lists;
mod moving;
pub mod pieces;
pub mod reading;
pub mod shown;
pub mod sizes;
pub mod writing;

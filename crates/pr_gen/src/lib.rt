//! Guests that are made: probes, which make a list of calls, and generated cases.
//!
//! Its code reads from top to bottom as the list of its steps, one block a step, behind a prologue of a
//! few instructions; the two routines that show an answer stand behind the last step. Its data stands
//! on the pages behind the code, and is named by its distance from one register alone, so that no block
//! depends on how long the code is.
//!
//! What is proved, with the clause or the law that carries it:
//!
//! Probes, guests that make a list of calls and show what they got.
//!
//! `probe` writes a file that `check` accepts; `is_probe` tells whether steps meet its conditions (`IsProbe`).
//!
//! Only tested, or not shown: What a probe's guest does: the tables of `words_tests`, on the processor alone.
//!
//! # `draws`, `guest`, `listing`, `parts`, `program`, `texts`
//!
//! Generated cases: a tree, bindings and a guest that uses them, made from a number.
//!
//! A case that is drawn from a number.
//!
//! `case` gives the tree and the user of the case's listing, the root, the bindings and the command of the definition, and the guest's file is
//! one that can be loaded (`IsCase`); want of memory alone refuses it, since no line of the listing is bad.
//!
//! Only tested, or not shown: What the guest does: `--case` in `top_tests`. Its code word for word as an assembler writes it, and the files of
//! three cases: `words_tests`.
#![tactic(auto)]

pub mod below;
mod calls;
mod code;
mod conditions;
mod constants;
mod data;
mod draws;
mod file;
mod guest;
mod instructions;
mod listing;
mod parts;
mod program;
mod showing;
mod steps;
mod texts;

pub use conditions::is_probe;
pub use file::probe;
pub use parts::{CaseParts, case};
pub use steps::{Arg, ProbeStep, Show, Who};

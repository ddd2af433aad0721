//! Scripts in guest terms: the program that execve(2) runs in the end, as a tracer finds it.
//!
//! What is proved, with the clause or the law that carries it:
//!
//! The program that execve(2) runs in the end, in guest terms. pt_tracer and pt_first take it up.
//!
//! `expand` answers exactly what the definition of scripts comes to (kr_calls; a kernel's own execve goes by the same one) where a program is
//! found by a walk over guest texts and its first bytes are asked of its host text, or fails as that does, want of memory aside (`answer`; the
//! definition is `expanded_at`): the program's host text and index, its arguments, and how many scripts led to it. What the kernel tells is as
//! before (`kernel`). It asks that what its walker remembers agrees with that (`agrees`), and so it does behind it, whatever it answers; the walker's
//! table and pauses are as before (`walker`).
//!
//! A file that is no script runs itself with its arguments as they are; behind at most five scripts that lead to one another the last interpreter
//! runs, a sixth is ELOOP, and a script that leads nowhere gives its own error (`scripts_end`). No program runs in another way
//! (`programs_run_by_chains`).
//!
//! A program's host text and index are those of a guest text, so none is found that stands on the host alone (`programs_are_of_guest_texts`). The
//! last interpreter's arguments end with the first script's path as it was given and its arguments but the first (`arguments_follow`).
//!
//! Only tested, or not shown: 14 rows are worked out by hand; `canon_tests`: want of memory at a peek. Whole runs show scripts. pt_tracer puts
//! the texts from scripts on the shelf.
#![tactic(auto)]

pub mod arguments;
pub mod below;
mod command;
pub mod expansion;
pub mod finder;
pub mod laws;
pub mod program;

pub use arguments::{bytes_within, is_too_big};
pub use expansion::{Expanded, expand};
pub use finder::Finder;
pub use program::Program;

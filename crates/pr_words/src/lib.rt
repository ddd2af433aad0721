//! The words of the call: options, what they ask for, and a command by its texts.
//!
//! What is proved, with the clause or the law that carries it:
//!
//! What the words of a command line ask for. pr_sources takes it up.
//!
//! `read` answers exactly the options and the command of the definition, or the first word that breaks a rule and which rule, want of memory
//! aside (its one clause): a zero byte in a word first, then word by word the smallest number among the rules that the word breaks, last what may
//! not stand beside `--case`, `--calm` without `--native`, and `--loose` beside what excludes it.
//!
//! In what was read no text has a zero byte, no part of a binding is empty, bindings are numbered from 1 on, and numbers lie within their ranges
//! (`sound`).
//!
//! Options read back: settings that are spelled each in its long form with its value, with a command behind them, are read as they are
//! (`options_are_read_back`).
//!
//! Only tested, or not shown: `words_tests`: option words.
//!
//! # `command`, `launch`, `search`
//!
//! The command of a run: its word, its arguments, and the paths at which it is looked for.
//!
//! A command by its texts: which directories of PATH are tried, in which order, what its arguments are (`path_of`, `split_at_colons`,
//! `arguments`, each exactly as defined), and what a program is launched with (`Launch`). pr_start and pt_first take it up.
//!
//! Only tested, or not shown: `rows`.
#![tactic(auto)]

pub mod below;
mod command;
mod fault;
mod front;
mod kind;
pub mod launch;
pub mod laws;
mod options;
mod schedule;
mod search;
mod setting;
mod so_far;
mod spelling;
mod value;
mod variables;
mod words;

pub use command::{arguments, has_slash, word_of};
pub use fault::{Why, WordsFault};
pub use launch::Launch;
pub use options::{Binds, Options, Slot, Slots};
pub use search::{candidate, directories, path_of};
pub use words::read;

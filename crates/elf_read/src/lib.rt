//! What the loader accepts of an ELF-64 file, and what of the file the loader needs.
//! Source: the ELF-64 object file format, its chapters on the file header and the program header table.
//! Which files are accepted, and where they are loaded, is the project's own rule.
//!
//! What is proved, with the clause or the law that carries it:
//!
//! Which ELF files are accepted.
//!
//! `check` answers Ok exactly where no rule is broken, with the plan of the file, and else the first broken rule with the header that breaks it
//! first (`ok`, `err`; the rules are `first_broken`).
//!
//! The segments of an accepted file lie in their range of addresses, in the file and in order, with sizes and places that fit together (`sound`,
//! `ordered`).
//!
//! Only tested, or not shown: `rv_tests`.
#![tactic(auto)]

pub mod below;
mod fault;
mod file;
mod headers;
mod plan;
mod rules;
mod table;

pub use fault::ElfFault;
pub use file::check;
pub use headers::{FileHeader, ProgramHeader};
pub use plan::{Plan, Segment};

//! ELF-64 files of two segments, as the loader accepts them.
//! Source of the format: the ELF-64 object file format, its chapters on the file header and the program
//! header table.
//!
//! What is proved, with the clause or the law that carries it:
//!
//! Files of two segments.
//!
//! `write` makes a file of exactly the bytes of the definition (`whole`), which `check` accepts (`accepted`), with these segments, this entry,
//! the code at its place and the data behind it (`segments`, `entry`, `table`, `headers`, `code`, `init`).
//!
//! Only tested, or not shown: `rv_tests`.
#![tactic(auto)]

mod layout;

pub use layout::write;

//! Names, texts and numbers of what stands in the process directory, as proc(5) has them.
//!
//! What is proved, with the clause or the law that carries it:
//!
//! Names, texts and numbers of what stands in the process directory.
//!
//! `number_of` reads a decimal number without leading zeros up to 4294967295, and nothing else; `proc_name`, `pipe_text`, `proc_inode` and
//! `proc_serial` are the definition's. Names and numbers are each other's inverse (`names_and_numbers_are_inverse`), a name in a directory stands
//! for one object (`names_stand_for_one`), what is found stands under its own name (`found_under_own_names`), inode numbers are apart from one
//! another and from the tree's (`inodes_are_apart`), and serials rise along each directory (`serials_rise`).
//!
//! Only tested, or not shown: `ground_tests`.
#![tactic(auto)]

pub mod below;
mod decimal;
pub mod laws;
pub mod names;
pub mod numbers;

pub use decimal::number_of;
pub use names::{pipe_text, proc_name};
pub use numbers::{proc_inode, proc_serial};

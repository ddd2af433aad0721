//! What the words ask for, and then the sources, read one after the other; and what the top call answers.
//!
//! What is proved, with the clause or the law that carries it:
//!
//! The words, and then the sources, read in their order.
//!
//! `ask` answers the options of the words, or the first word that breaks a rule, want of memory aside (`answer`).
//!
//! `read` comes to the definition's outcome or refusal of given options and of the bytes that the sources gave in the call, a fault or want of
//! memory aside (`told`; the stages are `read_tree`, `read_listing`, `read_asked`): the listing, the ELF file where the listing names it, the
//! listing checked, the input. What each gave is told, whatever is answered (`gives`). A tree that is read is kept, and an input is of bytes
//! (`kept`, `bytes`).
//!
//! Each source whose stage was passed was read to its end, and one that is too long gave its limit and one byte (`ends`; `IsReadAs`). A fault
//! names a source whose count rose and that was come to (`causes`). What isn't come to isn't touched (`before_elf`, `unwanted`, `before_input`,
//! `unlisted`). Whatever is answered, a source that counts its calls was asked at most once more than its limit has bytes (`tree_takes`,
//! `elf_takes`, `input_takes`).
//!
//! Of sources that tell what they have left, that comes to the same as what they gave (`sources_that_tell_agree`).
//!
//! Only tested, or not shown: `rows`; sources that fail in `top_tests`.
//!
//! # `answer`, `why`
//!
//! What the top call answers: how a run ended, or why there is none.
//!
//! What the top call answers. `Answer::status` and `Answer::line` are the table of answers (`status_of`, `line_of`).
//!
//! Only tested, or not shown: `rows`; the answers to faults in `top_tests`.
#![tactic(auto)]

mod answer;
pub mod below;
pub mod laws;
mod reading;
mod why;
mod within;
mod words;

pub use answer::{Answer, Which};
pub use reading::{Asked, read};
pub use words::ask;

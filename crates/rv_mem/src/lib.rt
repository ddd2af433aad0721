//! The memory of a simulated RISC-V process: pages with rights and marks, a copy for a fork, and
//! texts read out of it.
//!
//! What is proved, with the clause or the law that carries it:
//!
//! The memory of a process, at every `MARKED`.
//!
//! A memory is a finite map from page numbers to pages of bytes, rights and marks, and whether a marked byte was read. In code the pages stand in
//! a list; an ordered map leads from a page's number to its place, and the places that were used last are tried first. `map`, `unmap`, `protect`,
//! `write`, `mark` and `fork` are the changes of that map that their names say, all or nothing, with each refusal exactly when (`full`, `when`,
//! `bad`) and nothing changed by it (`err`); `read` and `text_at` give the bytes of the map and note marks of what they read (`after`).
//!
//! `fetch` gives the instruction that the word at an address decodes to, if it is one (`word`), and is refused exactly where one of its bytes may
//! not be executed (`refused`). What was decoded of a page is remembered in it, which no clause shows.
//!
//! `can`, `pages` and `mark_was_read` are functions of the map. `can` also tells what holds of every memory: its pages lie below the last address
//! and are whole, and what stands in them are bytes (`placed`, `whole`, `bytes`).
//!
//! The bytes of a page are shared after a fork and copied by the first write on either side, with these clauses as they were; a page that was
//! only mapped takes no memory for its bytes.
//!
//! The layout of a memory, its pages' rights by number, follows its changes (`layouts_follow`); `has_any` tells whether one of the pages of a
//! range is mapped, and `lowest_place` is the lowest free place for a given number of pages in a range. Memories that are equal but for marked
//! bytes have one layout, and stay equal so where both are changed in one way (`pages_stay_alike`).
//!
//! What an instruction or a call does with a memory is a tree of actions. Memories that are equal but for marked bytes answer such a tree alike,
//! as long as no marked byte is read (`actions_read_alike`).
//!
//! Only tested, or not shown: What a call costs isn't proved. The rows of `rv_rows`: success with ample memory, and the limits. `rv_tests`: a
//! write for which memory is wanting.
#![tactic(auto)]

mod access;
pub mod below;
mod code;
mod fault;
mod frame;
pub mod laws;
mod mark_list;
mod marks;
mod page;
mod page_list;
mod places;
mod ranges;
mod recent;
mod regs;
mod rights;
mod room;
mod shared;
mod space;
mod table;
mod text;

pub use fault::{BadAddress, MapFault, StoreFault, TextFault};
pub use regs::Regs;
pub use rights::{Rights, Use};
pub use room::Room;
pub use space::{ALL_PAGES, PAGES_END, SPACE_PAGES, Space};

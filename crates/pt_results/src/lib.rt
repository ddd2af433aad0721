//! What a tracer answers in place of the plain kernel, and what it notes of the plain kernel's answers.
//!
//! What is proved, with the clause or the law that carries it:
//!
//! What a tracer answers itself, and what it notes of the plain kernel's answers. pt_tracer takes it up.
//!
//! `note_result` leaves exactly the tags of the definition (`ok`; `tags_after`), and want of memory leaves them as they were (`err`).
//! `cwd_answer` and `link_answer` answer exactly what getcwd and readlinkat of a link of the process directory tell in guest terms, want of
//! memory aside (`answer`). `link_answer` asks that what its walker remembers agrees with what the kernel tells (`agrees`), and so it does behind
//! it, whatever it answers; the walker's table and pauses are as before (`walker`).
//!
//! A note sets the tag of one slot of one process, or copies another's, or changes nothing (`notes_change_one_slot`). A link of the process
//! directory leads to the guest text of its object by the object's tag (`links_lead_by_tags`).
//!
//! Only tested, or not shown: 15 rows are worked out by hand; `canon_tests`: want of memory at a peek. Whole runs show answers and notes.
#![tactic(auto)]

pub mod below;
pub mod directory;
pub mod laws;
pub mod link;
mod note;
pub mod noting;
mod numbers;

pub use directory::cwd_answer;
pub use link::link_answer;
pub use noting::note_result;

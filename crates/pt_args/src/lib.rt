//! What a tracer makes of a call before the plain kernel sees it: paths in guest terms become paths of the host.
//!
//! What is proved, with the clause or the law that carries it:
//!
//! What a tracer makes of a call at its entry, before the plain kernel sees it. pt_tracer takes it up, pt_results and pt_script parts of it.
//!
//! `rewrite_along` answers what `rewrite` does, and where the first path led. `rewrite` answers exactly the edit of the definition for every request, want of memory aside (`edit`; the definition is `edit_of`): the call
//! passes as it is, its paths are swapped for host paths that stand on the shelf below the stack pointer, or it is cancelled with an error. What
//! the kernel tells is as before (`kernel`). It asks that 65,536 bytes lie below the stack pointer where the shelf can be used (`shelf`), and that what
//! its walker remembers agrees with what the kernel tells (`agrees`); so it does behind it, whatever it answers, and the walker's table and pauses
//! are as before (`walker`).
//!
//! Items on a shelf stand one below the other (`shelves_hold_their_items`), and a text on it is read back as a path is (`texts_are_read_back`). A
//! call without a path passes; an edit changes no register but those of its call's paths and writes nothing but the shelf
//! (`edits_keep_to_paths`).
//!
//! Only tested, or not shown: 15 edits are worked out by hand; `canon_tests`: want of memory at a peek. Whole runs show edited calls.
#![tactic(auto)]

pub mod base;
pub mod below;
pub mod caller;
pub mod edit;
pub mod entry;
pub mod laws;
pub mod parting;
mod plan;
mod point;
pub mod purpose;
pub mod reached;
pub mod shelf;

pub use base::working_text;
pub use caller::Caller;
pub use edit::{Edit, Pokes, Swaps};
pub use entry::{Rewritten, rewrite, rewrite_along};
pub use parting::parted;
pub use purpose::Purpose;
pub use reached::Reached;
pub use shelf::Shelf;

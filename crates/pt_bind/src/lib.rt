//! The texts under which a guest and its host see the same object, by a table of bindings.
//!
//! What is proved, with the clause or the law that carries it:
//!
//! Tables of bindings, and the tags of what processes hold. The other crates of the tracer take it up.
//!
//! `Table` answers the host text of a guest text (`host_of`), the guest text of a host text by the index of a binding (`guest_of`), the index to
//! which a guest text belongs (`index_of`), and whether a host text is that of a mount point (`is_point`), each exactly as the definition over
//! the rows says, want of memory aside.
//!
//! A text belongs to the binding with the longest location that it begins with, component by component, and its host text is that source followed
//! by the rest (`owners_are_longest`); the guest text of a text's host text by the text's own index is the text itself (`host_texts_go_back`);
//! settled bindings are read back from their bytes (`rows_are_read`).
//!
//! `Tags` leads from a process and its working directory, executable or a descriptor to the index of a binding, 0 where nothing is set. Each call
//! is a look-up in that map or a change of it, want of memory aside; what the changes leave is a law (`tags_change`).
//!
//! Only tested, or not shown: `canon_tests`: tables of bindings, and tags.
#![tactic(auto)]

pub mod below;
pub mod laws;
pub mod slot;
pub mod table;
mod tagged;
pub mod tags;
mod text;

pub use slot::Slot;
pub use table::Table;
pub use tags::Tags;
pub use text::rest_below;

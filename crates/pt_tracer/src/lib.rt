//! The tracer of a plain kernel: guest paths become host paths, and answers become those that the guest would have had.
//!
//! What is proved, with the clause or the law that carries it:
//!
//! The tracer. pr_start takes it up.
//!
//! What `Tracer` does at the two stops of a call, as a process makes a child and as one ends, are exactly the functions of the definition
//! (`specs/Watched.antt`): its four relations as a watcher are their graphs (`tracer_is_its_definition`). A second stop without a first one
//! changes nothing (`exits_follow_entries`), a first stop forgets what an earlier one left (`entries_forget`), neither touches what is kept of
//! other processes (`others_stay`), and a child has its parent's tags and identity, and one that ended none (`come_and_go`). At an entry stop a
//! call's paths are put on the shelf in host terms, the registers that name them are changed, and calls on users and groups are answered from the
//! identity that is faked; at the exit stop the registers are given back (what was written below the stack pointer stays), results are told in
//! guest terms, tags are noted, and what the host user owns is shown as the identity's.
//!
//! Beside what it traces a tracer keeps a walker, which may remember answers of its walks from stop to stop. What it remembers *agrees* with the tree:
//! each answer is that of its walk now. A stop needs that and keeps it (`agrees`), and it lasts where the tree keeps its shape
//! (`lasts_with_shape`). At the first stop of a call that can alter the shape the walker pauses for that process, so that nothing is remembered until
//! its next stop or its end (`frees`, `others`); each process has a pause of its own. The definition's run doesn't see any of it
//! (`tracer_is_its_definition` speaks of what is traced).
//!
//! Only tested, or not shown: the program's runs
#![tactic(auto)]

mod altering;
mod answering;
mod apply;
pub mod below;
pub mod laws;
mod pausing;
mod pending;
pub mod plan;
mod planning;
mod pokes;
mod registers;
mod script;
mod settling;
mod tracer;

pub use pending::Pending;
pub use plan::{Led, Plan};
pub use pt_faker::Graphed;
pub use registers::Arguments;
pub use tracer::Tracer;

//! The host's own view over the state of a kernel, whatever the kernel's own view is: its process directory, and what a
//! tracer is told along it.
//!
//! What is proved, with the clause or the law that carries it:
//!
//! The host's own view over a state of kr_ops that is lawful for some view, whatever that is: one mount, in which all its places are seen.
//! kr_turns takes it up.
//!
//! `HostProcs` is a `Procs` of that mount: the names are the same, and links lead to the same objects, exactly as kr_model defines it
//! (`host_leads`), want of memory aside. That is the process directory of a kernel with one mount over the state with every mount 0
//! (`hosts_have_one_mount`). It keeps what every process directory keeps, and links lead to places of the one mount (`lawful_on_host`), which
//! walks ask.
//!
//! `HostPeeks` implements `Peeks` in a caller's name: each call answers what the walk of the host's own view finds, exactly as kr_model defines
//! it (`peeked_of`), or want of memory; and whether that walk looks up a name in the process directory: where it doesn't, no link of that directory
//! is found. `peeks` has the same calls on a state that is lent. What else their walks meet isn't told.
//!
//! Only tested, or not shown: No tests of its own.
#![tactic(auto)]

mod asked;
pub mod below;
pub mod laws;
pub mod peeks;
mod target;
mod view;

pub use asked::{HostPeeks, host_peeks};
pub use view::{HostProcs, host_procs};

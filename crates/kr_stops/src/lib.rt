//! A process at the stops of its call, and who watches there.
//!
//! What is proved, with the clause or the law that carries it:
//!
//! `Stops` is a watcher, `Tracee` the stopped process as it sees it: `set_reg` changes one register, `peek` and `poke` read and write exactly the
//! range that is asked, `request` is the decoding of what stands there, and a peek answers what the host's own view shows over the state (clauses
//! `set`, `when`, `bytes`, `after`, `err` and the law `peeks_at_state`). At a stop at most the registers but the program counter, and the bytes
//! of the memory, are changed (`edits`). Whether a peek at the first stop looks up a name in the process directory is the watcher's to tell (`asks`).
//! `Unwatched` does nothing. kr_turns makes turns with them, the crates of the tracer are such watchers.
//!
//! A watcher may remember what it learned of the tree from stop to stop. What it keeps then *agrees* with the tree: a stop needs that, and keeps it
//! (`agrees`), and it lasts as long as the tree keeps its shape (law `lasts_with_shape`). At the first stop of a call that can alter the shape, by
//! the registers that are left, what is kept becomes *free* for the caller (`frees`): it agrees with every tree (law `free_agrees`) until the next
//! stop or the end of that process (`others`, `free`).
#![tactic(auto)]

mod handed;
mod stops;
mod tracee;

pub use handed::{Handed, NOTHING_HANDED};
pub use stops::{Stops, Unwatched};
pub use tracee::Tracee;

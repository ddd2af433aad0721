//! What bytes are read from and written to: sources and sinks that count their faults, over memory
//! and over what the system opened.
//!
//! What is proved, with the clause or the law that carries it:
//!
//! Sources and sinks with a count of faults, which tell their history: a source all bytes that it gave (`given`), and whether the last take with room
//! that succeeded told the end (`ended`); a sink all that it got (`got`). A source may also tell what it has left (`left`); those in memory do.
//!
//! Every `take` and `put` keeps the contracts of `Source` and `Sink`: a take gives the bytes that it moved, and a failed one none (`gives`, `ends`);
//! what a source has left loses the same, in order, and 0 is answered exactly at its end (`bytes`, `end`); a source may count its calls (`takes`), and
//! a call counts once at most (`once`); a sink gets all bytes at Ok, a prefix at Failed and nothing at NoMemory; Failed comes only where the count
//! rose; the count never falls.
//!
//! `MemSource` and `MemSink` fail at the listed calls and nowhere else (`fails`, `listed`), a `slow` source gives at most a step's bytes at a
//! call (`most`), and a `torn` sink keeps the first bytes of a call that fails (`failed`); `CleanSource` and `CleanSink` never (`never_fails`),
//! the forms over files fail over nothing always (`closed`), and `FileSink` and `ReplacingSink` never answer NoMemory (`no_memory`). What a
//! reader that tells its bytes has left loses those that were given, and the content of a writer that tells its own grows by those that were got
//! (`told`, `grows`). What stands in the writer of a `ReplacingSink` goes once, before the first byte of the first put, and stays where no cut was
//! made (`told`, `cut`, `once`, `uncut`).
//!
//! The histories of the forms over files are lists that only proofs see (`History`): that they are the bytes which the calls of the system gave and
//! took rests on the two calls of `longer`, in `file.rt`, which the clauses on readers and writers that tell their bytes hold to these.
//!
//! Only tested, or not shown: That the File forms move bytes through a file of the system, make a put whole or fail it, and make an interrupted
//! read again, and that a file keeps what stands in it until the first put: `ground_tests`. What the system does with bytes that it took.
#![tactic(auto)]

pub mod below;
mod calls;
pub mod clean;
pub mod fault;
pub mod file;
mod history;
pub mod memory;
pub mod replacing;
pub mod sink;
pub mod source;
mod unread;

pub use clean::{CleanSink, CleanSource};
pub use fault::{Failed, PutFault};
pub use file::{FileSink, FileSource};
pub use memory::{MemSink, MemSource};
pub use replacing::{Cut, ReplacingSink};
pub use sink::Sink;
pub use source::Source;

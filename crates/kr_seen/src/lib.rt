//! What calls see of the state of a kernel, and what they answer: the process directory, as proc(5) has it (what its names stand for, where
//! its links lead, and their texts), where the paths of a call lead, and what is left of a state where a call was carried out.
//!
//! What is proved, with the clause or the law that carries it:
//!
//! The process directory over a state of kr_ops, for any view of the mounts. Walks of calls and the calls on links take it up.
//!
//! `ProcView` is a `Procs`: what a name stands for (`find`), where a link leads (`lead`), and beside it the text of a link (`text`) and the guest
//! name of a place, also of one in the process directory (`guest_text`), each exactly, want of memory aside.
//!
//! `find`, `target` and `guest` have the same of any state and of a table of mounts that stands in its tree, for another view to take up.
//!
//! That is what the definition of the process directory shows of the same state with its mounts told by their numbers (`shows_the_directory`).
//! Over a lawful state it keeps what every process directory keeps, and its links lead to places of the view in the tree (`lawful_are_shown`),
//! which walks ask.
//!
//! Where the paths of a call lead, over a state of kr_ops. kr_perform takes it up.
//!
//! `walk_paths` answers exactly the targets of the definition: each path from its base (the root for an absolute one, the working directory, or
//! what is open under its descriptor: EBADF, ENOTDIR), in the mode in which its call looks it up, the first path before the second, or the first
//! error (`answer`; `targets_of`). What the walks reach is told exactly, whatever is answered (`reach`; `call_reach`); after want of memory it
//! stands between the old value and that.
//!
//! What calls answer (a number, or a refusal by its error), and what is left of a state where a row was carried out (`CarriesOut`): the caller's
//! memory as the row left it, and then the reply's changes, with the mounts that those may name. After want of memory nothing is promised. That
//! holds also of calls that can't want any: a body that only answers want of memory would be proved of each call below.
//!
//! `caller` has the uses of the caller's memory, for the rows of all crates above: a test, reads and a write of bytes, all or none of them. What is
//! read or written is that of the definition (`Reads`, `Writes`), and all that calls may ask of the state stays (`HasMemory`). `HasComeTo` says
//! how far a row has come by such uses.
//!
//! Only tested, or not shown: No tests of its own. `rows`. That each call but execve(2) answers with ample memory: `rows`; whole runs of others.
//!
//! # `asking`, `targets`, `told`
//!
//! What a call is told of the targets of its paths, and what calls with paths ask of a state.
//!
//! What calls are told of the targets of their paths, over any view and a state of kr_ops.
//!
//! `looked`, `taken`, `made`, `opened`, `linked` and `moved` answer exactly what the definition tells of a target: what was found, with the entry
//! that an opening remembers, whether a mount stands there, whether two entries are in one mount. `writable` answers the directory that is to be
//! changed, or ENOENT or EACCES (`IsWritable`).
//!
//! Only tested, or not shown: `rows`.
//!
//! # `mounts`
//!
//! Laws of a state whose mounts are told by their numbers in a view, as the definitions of calls tell them: what is asked
//! of it and what is made of it are those of the state itself.
//!
//! Laws of a state whose mounts are told by their numbers in a view, and no code. What calls know of it is what they know of the state itself
//! (`known_is_numbered`); a change, and all changes of a call, do on it what they do on the state (`changes_are_numbered`), and so does what is
//! done to one process (`steps_are_numbered`); its processes that pass a test, and the one that is picked of them, are those of the state
//! (`choices_are_numbered`). So what the code leaves of a state is told by the definitions of calls, which tell mounts by their numbers. kr_calm,
//! kr_turns and kr_core take it up.
#![tactic(auto)]

mod answers;
pub mod asking;
pub mod below;
pub mod caller;
pub mod find;
pub mod guest;
pub mod laws;
pub mod mounts;
mod name;
pub mod target;
pub mod targets;
pub mod told;
mod view;
mod walks;

pub use answers::{number, refused};
pub use asking::{is_directory_host, is_processes_host, is_searched, writable};
pub use targets::{creates, inode_of, linked, looked, made, moved, opened, taken};
pub use told::{Entered, Entry, Linked, Looked, Made, Moved, Opening, Taken};
pub use view::{ProcView, procs};
pub use walks::{Targets, walk_paths};

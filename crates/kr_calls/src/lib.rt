//! What a guest asks for: requests out of registers and memory, and the structures that answers are written in.
//!
//! What is proved, with the clause or the law that carries it:
//!
//! What a guest asks for.
//!
//! `decode` gives the request in registers and memory exactly as the row of its call says, or the error of its decoding (`decoded`; the rows are
//! trees of memory actions, one definition for each call). Bytes, rights and marks of the memory stay (`pages`), and whatever is answered the
//! flag of marked bytes that were read is the definition's; memory is wanting for texts alone (`wanting`). What was decoded can be given by
//! decoding (`decoded_is_given`), which is what carrying it out will ask. Decoding is a table of rows of four shapes, too (`rows`, in
//! `specs/Decoding.antt`), from which laws follow: what was decoded has the number of its line (`decoded_are_numbered`), and decoding writes
//! nothing (`decodings_leave_pages`).
//!
//! The table of the calls is a definition (`line`, in `specs/CallTable.antt`): what each is told and along which paths, and what it can do.
//! `path_of` gives the paths of a line (`path_at`), and `has_path` says of a number whether it is one of a call with a path.
//!
//! The scripts that execve(2) expands are a definition here (`expanded`) over how a path is found, with rows worked out by hand.
//!
//! `stat_bytes` and `dirent_bytes` are the structures of stat(2) and getdents64(2) (`stat_layout`, `entry_bytes`).
//!
//! `script_line` gives the interpreter and the argument on a script's first line, and none exactly where the line is refused (`script_of`).
//!
//! Only tested, or not shown: `calls_tests`.
#![tactic(auto)]

mod arguments;
pub mod below;
pub mod decoding;
pub mod directory_entry;
pub mod fault;
pub mod laws;
pub mod paths;
pub mod request;
mod rows;
pub mod script;
pub mod stat;

pub use decoding::decode;
pub use directory_entry::dirent_bytes;
pub use fault::CallFault;
pub use paths::{PathArg, has_path, path_of};
pub use request::Request;
pub use script::script_line;
pub use stat::{Stat, stat_bytes};

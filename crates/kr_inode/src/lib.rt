//! One inode of the tree: its mode and owner, the entries or bytes that it holds, and the counts that are
//! kept beside it.
//!
//! What is proved, with the clause or the law that carries it:
//!
//! One inode, the part of the tree that needs no other inode.
//!
//! `Entries` are the entries of a directory as a list in the order of their serials. `find`, `at` and `after` are look-ups in it; `add`,
//! `replace` and `remove` are the changes of the definition (`ok`), and a refusal leaves the list as it was (`err`). Names are well-formed and no
//! two are alike, and serials rise (`IsListed`, their invariant).
//!
//! They stand in an ordered map by serial, with what is kept at each name in a hash table beside it, so that a look-up, a new entry, a removal and
//! the next entry cost at most a logarithm of their number.
//!
//! `Inode` is a node (mode, owner, body) with its counts; each of its calls is a look-up in it or a change of the definition. `allows` goes by
//! owner, group or others alone, the first class that fits.
//!
//! `is_name` is the test of a well-formed name (`tests`), which is what pr_base calls one (`means`).
//!
//! Only tested, or not shown: What a call costs isn't proved.
#![tactic(auto)]

pub mod below;
mod content;
pub mod entries;
pub mod inode;
pub mod name;
pub mod node;
pub mod standing;
pub mod user;

pub use entries::{Entries, Slot};
pub use inode::Inode;
pub use name::is_name;
pub use node::{FILE_LIMIT, Ino, Kind, Meta, Node};
pub use standing::Standing;
pub use user::{Right, User};

//! The tree of inodes on which both machines work.
//!
//! What is proved, with the clause or the law that carries it:
//!
//! The tree of inodes.
//!
//! A tree is a finite map of inodes by their numbers, with the next number and the counts of names and bytes beside it. `kind`, `meta`, `entry`,
//! `next_entry`, `above`, `may`, `file`, `link_text`, `directories` and the tests for callers (`takes_names`, `is_filled`, `holds` and the like)
//! are functions of it.
//!
//! `add`, `link`, `remove`, `hold`, `release`, `set_mode`, `set_owner`, `set_size` and `write_file` are the changes of the definition, with
//! nothing else changed (`ok`); Full and TooBig come exactly at the limits, TooBig first (`full`, `too_big`), and a refusal leaves the tree as it
//! was (`err`).
//!
//! `rename` is the change of the definition, of a lawful pair (`IsLawfulMove`, which `is_lawful_move` and `is_below` test); it can't fail
//! half-way.
//!
//! `name_of` gives the host name of a directory exactly (`host_name`, found by going up). A directory has one host name, the one text that names
//! it, and each one that wasn't removed has one (`has_host_names`).
//!
//! `same` is true exactly where the nodes of both trees are equal, serials included.
//!
//! Each change adds to the holds in all what a law says, and where one hold more fits in all it fits on each inode (`holds_are_counted`). On a
//! tree with fewer holds each change does what it does on the tree, where the inodes they were taken off keep a name
//! (`changes_are_alike_with_fewer_holds`), look-ups and room are the same, and the tree stays kept (`trees_look_alike_with_fewer_holds`,
//! `trees_are_kept_with_fewer_holds`).
//!
//! Every tree is kept (`trees_are_kept`: `kept`, `there`): every entry's inode is there, an inode has as many names as its count says, a
//! directory stands in exactly one entry or none, going up from it ends at the root or at a removed one, serials rise, names, files and texts are
//! of bytes below 256, and the counts and limits hold.
//!
//! Only tested, or not shown: `ground_tests`: Full by names, by inodes and by bytes.
#![tactic(auto)]

pub mod below;
pub mod hold_laws;
pub mod laws;
mod name;
pub mod place;
pub mod refusal;
mod store;
mod tree;

pub use kr_inode::{Ino, Kind, Meta, Node, Right, Standing, User, is_name};
pub use place::{Host, Place, ProcAt};
pub use refusal::TreeRefusal;
pub use tree::{ROOT, Tree};

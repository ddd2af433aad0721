//! The text form in which the tree comes in and goes out.
//!
//! What is proved, with the clause or the law that carries it:
//!
//! The text form in which the tree comes in and goes out.
//!
//! `wants_elf` tells whether a line begins with `x `.
//!
//! `read` gives exactly the tree and user that the definition reads line after line, or the first bad line and what is wrong with it, in the
//! stated order (`listing`). The tree that it gives has no holds, and the next inode number and each directory's next serial are one after the
//! last that was drawn (`drawn`).
//!
//! `write` gives exactly the canonical listing, want of memory aside (its one clause): the user's line, then a line for each name, compared
//! component by component by bytes, a directory before what is in it. It keeps a stack of its own and recurses nowhere.
//!
//! Reading the canonical listing of a tree and a user gives that user and a tree in which each text names the like (kind, mode, owner, bytes),
//! and two texts name one file exactly where they did (`listings_are_read_back`). This holds of every tree that a listing can stand for
//! (`CanBeListed`: its numbers, modes, texts and paths are such as lines can have, and the limits are kept also where a link counts once for each
//! of its names); what else it takes, every tree of the code has (`trees_are_kept`).
//!
//! Only tested, or not shown: `ground_tests`: a whole listing read and written in order (worked out by hand), the largest file and a listing with a
//! link too many, a tree 20,000 deep.
#![tactic(auto)]

pub mod below;
mod canonical;
mod escape;
mod fault;
pub mod laws;
mod line;
mod listing;
mod names;
mod number;
mod order;
mod path;
mod pieces;
mod so_far;
mod steps;
mod walk;
mod written;

pub use canonical::write;
pub use fault::{ListFault, TreeWhy};
pub use listing::{read, wants_elf};

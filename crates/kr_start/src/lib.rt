//! The state in which a run begins, over a tree in which bindings are settled.
//!
//! What is proved, with the clause or the law that carries it:
//!
//! The state in which a run begins.
//!
//! `idle` makes a state before a process lives: of a tree that nothing holds, and in which a view's mounts stand, with each of their sources held
//! once and nothing else (`state`, `sources_are_held`), lawful for that view (`lawful`).
//!
//! `begin` puts the first process into it, with what it computes on and where it stands, and opens the console under its descriptors 0 to 2
//! (`begins`; the definition is `started`); the state is lawful again (`lawful`). After want of memory it may only be dropped.
//!
//! Only tested, or not shown: Each row of `rows` begins with it.
//!
//! # `listed`
//!
//! Laws of the trees that listings give: a run over them begins with what lasts.
//!
//! Laws of the trees of listings, and no code. The tree and the user that a listing gives can last (`read_trees_last`), and so can a tree in
//! which bindings were settled (`settled_trees_last`; `grown_trees_last` for every tree in which the user made names). What can last is
//! `CanLast`; a run over it begins with what lasts (`starts_last`).
//!
//! # `stage`
//!
//! Trees in which bindings are settled, ready for the start of a kernel.
//!
//! A tree with settled bindings, on which a kernel can begin.
//!
//! `settled` comes to what settling comes to, want of memory aside (`staged`), and where it gives mounts all stands that a kernel asks of its
//! tree, its user and its mounts (`ready`; `IsReady`, which is `IsPrepared` with fewer mounts than 2^32). It asks for a tree and a user that a
//! listing gave, and bindings with their numbers as indices.
//!
//! Only tested, or not shown: `rows`.
#![tactic(auto)]

pub mod below;
mod first;
pub mod laws;
pub mod listed;
mod stage;

pub use first::{begin, idle};
pub use stage::{Stage, settled};

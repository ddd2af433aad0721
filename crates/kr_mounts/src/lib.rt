//! The mounts of a guest: bindings that are settled over a tree, and the view that enters them.
//!
//! What is proved, with the clause or the law that carries it:
//!
//! How bindings are settled, and the view that enters their mounts. kr_start takes it up.
//!
//! What settling comes to is a definition in four passes: the first refusal, or the tree with the missing names made and the table of mounts
//! (`settling`). A root, a source or a location that is empty or of more than 4,095 bytes is refused before a walk (`source_by`, `location_by`).
//! `settle` answers just that and leaves that tree, want of memory apart (`settled`), in a tree of which fewer than 2^30 inode numbers and 2^62
//! serials of each directory were drawn, names apart. It makes names in the tree and nothing else (`grown`, `settling_makes_names_alone`), so all
//! that was there is as it was, and each name takes one inode number and one serial (`grown_trees_have_all_before`); the bindings that count
//! stand in the order of the numbers of their names, no two at one location (`bindings_are_in_order`).
//!
//! Settled mounts stand in the tree that is left, as they were settled, so that the laws of `Places` hold (`settled_mounts_stand`, where bindings
//! have their numbers as indices). The names of each location alone lead to its mount's source. The user reaches each source by its host text,
//! with search on each directory on the way, and what is no directory has its name below its directory's text. A mount is located at its point's
//! name below the guest text of the point's directory, which belongs to the mount of the point, and the point has its name below that text's host
//! text, as the texts of the table give it. Then these texts are what a tracer's table needs (`bounds`).
//!
//! `Mounted` is a view over the table of settled mounts (`build`), which keeps mount points in ordered maps: each method of `Places` is what the
//! table says.
//!
//! Only tested, or not shown: What a look-up costs isn't proved. `rows`: bindings that are settled or refused, names made for them, walks through
//! their mounts.
#![tactic(auto)]

pub mod fault;
pub mod laws;
mod location;
pub mod mount;
pub mod mounted;
mod order;
mod passes;
mod point;
pub mod settled;
mod source;
mod text;

pub use fault::{BindFault, BindWhy};
pub use mounted::{MountNumber, Mounted};
pub use passes::settle;
pub use settled::Settled;

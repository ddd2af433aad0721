//! Walks along paths, and names in guest terms, over any view.
//!
//! What is proved, with the clause or the law that carries it:
//!
//! `resolve` answers exactly the walk of the definition, over every view and every process directory (`answer`): the rules of a walk over looking
//! at places. `reach` becomes exactly what that walk reaches, the longest host name, that of a mount point included at which a path ends that
//! names an entry, and whether a name was looked up in the process directory, also where it answers an errno; after want of memory it stands
//! between the old value and that (`reach`).
//!
//! `guest_name` answers exactly the guest name of the definition, want of memory aside. It goes by the place: the source of a mount has the
//! mount's location, whatever it is named now; what is no directory and remembers no entry has no guest name; what is below has the location
//! followed by the names from the source down; over the host's own view it is the host name (`guest_names_go_by_places`).
//!
//! Only tested, or not shown: `ground_tests`: walks over a tree that is made, in each mode, and what they reach.
#![tactic(auto)]

pub mod below;
mod component;
mod guest;
mod name;
mod position;
mod rest;
mod rests;
mod surroundings;
mod walk;

pub use guest::guest_name;
pub use walk::resolve;

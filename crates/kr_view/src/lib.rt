//! Path resolution on the tree of inodes, over any view of its mounts.
//!
//! What is proved, with the clause or the law that carries it:
//!
//! What path resolution over any view is, and its laws; kr_walk has the code.
//!
//! A view is a table of mounts as plain data; `Places` has it as its meaning, and each of its methods is computed from it. `Plain`, the host's
//! own view, is the table of one row. A view that stands in a tree has the laws of mounts: what `root`, `down` and `up` give is there and of its
//! settled kind, from a mount's source one comes back to the directory of its mount point, and covered names are entries
//! (`places_have_their_laws`); the host's own view stands in every tree, and is as it was settled (`plain_stands`). While a table is as it was
//! settled, what a call is told of a mount's source that is no directory is the entry that leads to it (`settled_sources_are_entries`).
//!
//! What every process directory keeps is a definition (`LawsOfProcesses`); `NoProcs` finds nothing, leads nowhere and keeps it
//! (`no_processes_keep_laws`), and so does one that shows a directory for each living process and a link for each of its descriptors
//! (`living_processes_keep_laws`).
//!
//! What a walk found is what its last component shows from the directory of its target, and that is a directory (`found_is_shown`): of a walk
//! that ends with a component, a link of the process directory that was followed as the last one apart. Over mounts that stand in the tree, the
//! directory of the target is one for each path that isn't empty, also where the path, or the text of a link, has no component
//! (`walks_end_in_directories`); such a link apart, whose target is its own directory if it is one, and else has the one that its object
//! remembers. The empty path ends at the place where the walk begins, of which nothing is asked. A walk that begins at a place of the view in the
//! tree comes to such places alone, where the links of the process directory lead to such (`walks_keep_places`), and it reads the nodes of the
//! tree alone, no holds and no counts (`walks_read_nodes`).
//!
//! What a host text reaches, in the process directory too, is a definition (`reaches`), joined to names and entries (`reaches_go_by_names`,
//! `reaches_are_sound`). Over the host's own view a walk along a text that is reached arrives there, in each mode, with and without a slash
//! behind it, a link where it isn't followed (`texts_are_found`, `reached_is_found`); along a reached directory's text and a name it ends as what
//! stands there says (`entries_are_found`), with `.` behind it as search says (`directories_are_searched`), and with more behind it as that does
//! from there (`walks_go_on_behind_texts`).
//!
//! Only tested, or not shown: `ground_tests`.
#![tactic(auto)]

pub mod below;
pub mod laws;
pub mod procs;
pub mod reach_laws;
pub mod target;
pub mod view;

pub use kr_tree::{Host, Ino, Place, ProcAt};
pub use procs::{Lead, NoProcs, Procs};
pub use target::{Reach, Target, WalkFault};
pub use view::{HostMount, MountRow, Places, Plain};

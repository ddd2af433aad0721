//! The identity that a process believes in: the numbers of its user and its groups, what calls make of them, and where they are shown; and the owners and
//! modes that a guest set, remembered for as long as it runs.
//!
//! What is proved, with the clause or the law that carries it:
//!
//! The identity that a process believes in (`-0`). pt_faker takes it up.
//!
//! `answer` answers a call on users and groups exactly as its row says and leaves the identity that the row leaves, and answers `None` exactly
//! for other requests; an error changes nothing. What a new program, an owner and the auxiliary vector show is exact (`after_exec`, `fix_stat`,
//! `fix_aux`), and so are groups as bytes (`group_bytes`, `groups_in`) and the identities of all processes (`Identities`).
//!
//! A call without privilege makes no number that wasn't there (`unprivileged_make_nothing`), and whoever has no number 0 never gets one
//! (`nobody_becomes_privileged`); whoever has a real or a saved 0 can. A refused call changes nothing (`refused_change_nothing`); groups are read
//! back (`groups_are_read_back`); a stat that is shown is that of the owner that is shown (`stat_shows_the_owner`).
//!
//! Remembered ownership, which the tracer takes up where a guest appears as user 0: `Owners` leads from an inode to an owner, a group and the low 12 bits of
//! a mode, each given or not. `new` is the map without an entry; `note` makes the one change that it is told, or none for want of memory; `shown` is what
//! it is handed with what is given in its place.
//!
//! A change shows at the inode of which it is said and nowhere else, and a number of all ones leaves the one that is there (`owners_change`); a
//! file keeps its kind, and of a mode that is said its low 12 bits alone are shown (`modes_keep_kinds`). Three changes and what is shown behind
//! them are worked out (`three_changes`).
//!
//! Only tested, or not shown: Whole runs with `-0` and `-i`; that `note` finds its memory where there is enough: `ground_tests`.
#![tactic(auto)]

pub mod below;
mod calls;
pub mod change;
mod entry;
mod ids;
pub mod laws;
pub mod owners;
mod setting;
mod showing;
mod stored;
mod table;

pub use calls::{IdAnswer, answer};
pub use change::{Change, Shown};
pub use ids::Ids;
pub use owners::Owners;
pub use showing::{fix_aux, fix_stat};
pub use stored::{group_bytes, groups_in};
pub use table::Identities;

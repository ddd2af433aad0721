//! Laws of lawful states: what each of them keeps, and that each change of a call leaves one.
//!
//! What is proved, with the clause or the law that carries it:
//!
//! Laws of lawful states, and no code.
//!
//! Each of the 30 changes keeps a lawful state, where it can be made and its caller lives: new names and nodes, names that are linked, removed
//! and moved, modes, owners, sizes and bytes; descriptors that are opened, copied, closed, flagged and moved in their file; pipes made, read and
//! written; the console; pages, breaks and umasks; working directories and executables; forks, ends and reaping; and a new program with the
//! descriptors that it doesn't get (`changes_keep_lawful`, one field a change, and `every_change_keeps_lawful`), and so do all changes of a call,
//! one behind the other (`all_changes_keep_lawful`).
//!
//! In a state where the holds are those of its uses, a process's descriptors, working directory and executable fit in 32 bits beside the holds of
//! each inode and the count of each open file (`holds_fit`): there are at most 256 processes with at most 1,024 descriptors each, and the mounts
//! hold an inode once at most (`pins_are_few`).
//!
//! What an open file stands at is held for each descriptor that names it, a working directory and an executable once each, and twice where they
//! are one inode (`used_is_held`). A hold and a release change the count of one inode by one (`holds_are_changed`).
#![tactic(auto)]

pub mod below;
pub mod laws;

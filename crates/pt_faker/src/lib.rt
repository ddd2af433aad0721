//! Watchers of calls.
//!
//! What is proved, with the clause or the law that carries it:
//!
//! A watcher that gives each process such an identity, `Faker`.
//!
//! What it does at the two stops of a call, as a process makes a child and as one ends, are exactly the functions of the definition
//! (`specs/Faking.antt`): its four relations as a watcher are their graphs (`faker_is_its_definition`), so that a turn with it is the
//! definition's by `turns_are_functions`. Calls on users and groups are answered in place of the kernel, with all that they read and write of the
//! caller's memory (`answer_call`); where processes start as root a refused change of an owner or a mode answers 0, and what was said is
//! remembered of the file to which the call led (`remember`); a refused chroot that leads to the root answers 0, too; what the host user owns is
//! shown as the process's own, and what is remembered over that (`show_owner`); and a new program saves the effective numbers, which stand in its
//! auxiliary vector (`show_identity`). All else of the stopped process stays (`edits`, `rest`).
//!
//! Of the definition: a second stop without a first one changes nothing (`exits_follow_entries`), a first one forgets what an earlier one left
//! (`entries_forget`), all other identities stay (`others_stay`), and processes come as their parents are and go without a trace (`come_and_go`).
//!
//! Who watches a run on the kernel with mounts: nobody, or that watcher (`Watch`). `Graphed` is the trait of watchers whose stops are functions of
//! a part of what they keep, and those of `Watch` are the definition's (`is_graph`; `specs/Watches.antt`).
//!
//! Only tested, or not shown: `rows` (tables of the numbers,
//! groups, owners and processes).
//!
//! # `lists`, `text`
//!
//! The lists of texts that a call of execve(2) hands over, as a tracer reads them.
//!
//! The lists of execve(2), the strings of a path, and numbers, read at a stop by peeks. pt_tracer takes it up.
//!
//! What is read is exactly what the kernel itself reads of the same memory, or its error, want of memory aside: the lists of strings up to their
//! null pointers, with the kernel's limits.
//!
//! Only tested, or not shown: the program's runs
//!
//! # `started`
//!
//! What a program is shown of its user and its group as it starts stands where a loader puts it.
//!
//! Laws of an identity that is shown on the first stack of a program, and no code.
//!
//! On a stack as the loader makes it, what the watchers do behind an execve (`show_identity`) alters the values of AT_UID, AT_EUID, AT_GID and
//! AT_EGID to the identity's, each at its place, and no other byte, and no right (`numbers_are_put`). Each program begins with such a stack
//! (`programs_begin_so`), and then has the bytes, and the rights, of the same one that was loaded with the identity's numbers
//! (`programs_are_as_loaded`).
#![tactic(auto)]

mod answering;
mod asking;
mod auxiliary;
pub mod below;
mod due;
mod dues;
mod faker;
mod graphed;
pub mod laws;
pub mod lists;
pub mod memory;
pub mod registers;
pub mod remembering;
pub mod started;
mod text;
mod watch;

pub use answering::answer_call;
pub use auxiliary::show_identity;
pub use due::Due;
pub use faker::{Faker, due_of};
pub use graphed::Graphed;
pub use kr_stops::{Stops, Tracee};
pub use lists::{Handed, addresses_behind, read_lists};
pub use watch::Watch;

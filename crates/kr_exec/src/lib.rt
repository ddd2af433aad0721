//! What execve(2) finds, reads and plans, before anything is changed.
//!
//! What is proved, with the clause or the law that carries it:
//!
//! What execve(2) finds, reads and plans, before anything is changed. kr_execve takes it up.
//!
//! `find_exec` answers exactly the walk of the definition that follows a last link, and EACCES where it leads to what is no regular file that the
//! user may execute (`answer`, `program`; the definition is `program_at`).
//!
//! `read_lists` reads the arguments and the environment exactly as the definition does, a tree of memory actions that goes address by address and
//! text by text, with the error of the first test that fails (`read`; `lists_at`). Memory is as it was but for the flag of marked bytes that were
//! read; after want of memory a part of what the definition reads was read (`IsPartRead`). Lists that were read keep within the limits (`fit`),
//! and so do those of a plan.
//!
//! `plan_exec` answers exactly the definition's plan or error: E2BIG of the lists, then the scripts in turn, then ENOEXEC by the rules of ELF
//! files (`answer`; `exec_plan`). The plan has the file with its place, the directory and name that it remembers (of the source of a mount those
//! at which it was settled), what the loader needs, and the lists; its file is one that the user may execute (`program`, `file`).
//!
//! The reach of all walks to interpreters is told exactly, whatever is answered (`reach`; `exec_reach`); after want of memory it stands between
//! the old value and that.
//!
//! Over mounts these are proved as over the host's own view.
//!
//! Only tested, or not shown: `rows`: guests that begin programs and scripts with lists of texts, a program that is bound, and programs in the
//! root of a guest.
#![tactic(auto)]

pub mod below;
pub mod find;
mod limits;
pub mod lists;
pub mod plan;
mod scripts;

pub use find::find_exec;
pub use lists::{Lists, read_lists};
pub use plan::{ExecPlan, plan_exec};

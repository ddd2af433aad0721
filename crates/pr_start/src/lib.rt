//! The start of a run, over mounts and with a tracer: its working directory and its command are looked for, and its first process begins.
//!
//! What is proved, with the clause or the law that carries it:
//!
//! The first working directory, the command, and the first process, over mounts.
//!
//! `start` begins exactly as the definition says or answers its errno, want of memory aside (`begins`; `beginning`): a working directory that
//! isn't one that the user may search becomes the root; a command without a slash is the first program of that name in the directories of PATH,
//! or in `/bin` and `/usr/bin`; and all these walks count for the calm rules. With an identity option the first process is told the identity's
//! numbers. It asks for a tree that is ready and for words without zero bytes. `start_unmarked` begins so on a kernel that keeps no marks,
//! and tells beside it the rule that its walks broke (`BeginsUnmarked`).
//!
//! Only tested, or not shown: `rows`.
//!
//! # `traced`
//!
//! The start of a run that a tracer watches: the first process is found in guest terms, and begins on a kernel that knows of no root and
//! no binding.
//!
//! The same with a tracer, on a plain kernel that knows of no root and no binding.
//!
//! `start_traced` begins exactly as the definition says or answers its errno, want of memory aside (its one clause; `traced_beginning`): the
//! first process is found in guest terms (pt_first), begins by its host texts, and the tracer has its tags. It asks for a tree that is ready and
//! for the texts of its bindings.
//!
//! Only tested, or not shown: the program's runs
#![tactic(auto)]

pub mod below;
mod command;
mod directory;
mod starting;
mod traced;

pub use kr_core::Kernel;
pub use pt_tracer::Tracer;
pub use pt_tracer::below::{Faker, Watch};
pub use starting::{start, start_unmarked};
pub use traced::start_traced;

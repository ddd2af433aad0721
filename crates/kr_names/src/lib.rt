//! Calls that name entries, carried out on the state of a kernel: new names, names that go and names that move, and the opening of
//! files.
//!
//! What is proved, with the clause or the law that carries it:
//!
//! Calls that open, make, remove and move names, carried out on a state of kr_ops: openat, mkdirat, symlinkat, unlinkat, linkat and renameat2.
//!
//! Each answers the outcome of its row and leaves what the row's reply makes of the state, over any view (`PerformsAt`); what the code keeps
//! beside a state's meaning stays kept (`served`). They ask of their targets what `walks_resolve` gives, and that numbers of inodes, serials and
//! open files aren't used up.
//!
//! Only tested, or not shown: `rows`.
#![tactic(auto)]

mod above;
mod adding;
mod creating;
pub mod flags;
mod found;
pub mod linking;
pub mod making;
pub mod moving;
pub mod opening;
pub mod removing;

pub use linking::linkat;
pub use making::{mkdirat, symlinkat};
pub use moving::renameat2;
pub use opening::openat;
pub use removing::unlinkat;

//! What those above name of the crates below.

pub use kr_start::below::{
    Host, Ino, Kind, MountNumber, Mounted, Place, ProcAt, Right, Tree, User, trees_are_kept,
};
pub use kr_start::{Stage, settled};

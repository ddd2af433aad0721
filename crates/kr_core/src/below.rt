//! What those above name of the crates below.

pub use kr_first::below::{MountNumber, Mounted, Stage, Tree, User, settled, trees_are_kept};
pub use kr_first::laws::roots_are_directories;
pub use kr_first::{First, StartFault, directory_at};
pub use kr_turns::below::{
    Bytes, NoMemory, NoProcs, Places, Plain, Reach, Rule, StoreFault, Texts, Use, WalkFault,
};
pub use kr_turns::{Stops, Tracee};

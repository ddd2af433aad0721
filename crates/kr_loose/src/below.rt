//! What those above name of the crates below.

pub use kr_core::below::{
    Bytes, First, NoMemory, Places, Plain, Reach, Stops, StoreFault, Texts, Tracee, Tree, Use,
    User, directory_at, trees_are_kept,
};
pub use kr_core::{Kernel, Phase, Turned};

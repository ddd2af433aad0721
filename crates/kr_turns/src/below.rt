//! What those above name of the crates below.

pub use kr_calm::{Rule, reaches_too_far};
pub use kr_execve::below::{NoProcs, Places, Plain, Reach, WalkFault};
pub use kr_hostview::below::{State, lawful_states_are_sound, trees_are_kept};
pub use kr_steps::below::{Bytes, NoMemory, StoreFault, Texts, Use};

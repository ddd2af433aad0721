//! What those above name of the crates below.

pub use kr_seen::below::{
    Bytes, Errno, Host, Ino, MODES, Meant, Meta, NoMemory, State, User, lawful_states_are_sound,
};
pub use kr_seen::{Opening, Taken, Targets, opened, procs, taken, walk_paths};

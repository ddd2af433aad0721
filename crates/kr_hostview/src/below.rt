//! What those above name of the crates below.

pub use kr_seen::below::{
    AT_FDCWD, BaseKind, Bytes, Errno, Host, HostMount, NoMemory, NoProcs, Outcome, PeekFault,
    PeekKind, Peeks, Places, Plain, Reach, State, Target, WalkFault, lawful_states_are_sound,
    resolve, trees_are_kept,
};
pub use kr_seen::{Targets, is_processes_host, walk_paths};

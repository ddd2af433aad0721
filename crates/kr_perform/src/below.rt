//! What those above name of the crates below.

pub use kr_rows::below::{Errno, Ino, Meant, State, User, lawful_states_are_sound, procs};
pub use law_allowed::below::{
    CallFault, NoProcs, Outcome, Place, Places, Plain, Reach, Request, Target, Tree, WalkFault,
    What, decode,
};

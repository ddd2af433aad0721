//! What those above name of the crates below.

pub use law_lawful::below::{
    CallFault, NoProcs, Outcome, Place, Places, Plain, Reach, Request, Target, Tree, Use,
    WalkFault, What, decode,
};

//! What those above name of the crates below.

pub use kr_core::below::{Rule, Stage, StartFault, settled};
pub use pt_first::below::{Launch, Options};

//! What those above name of the crates below.

pub use kr_calls;
pub use kr_walk;
pub use kr_walk::below::Place;

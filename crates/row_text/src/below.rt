//! What those above name of the crates below.

pub use guests::below::{Bytes, NoMemory};

//! What those above name of the crates below.

pub use pt_args::below::pt_bind::{Table, Tags};
pub use pt_args::below::pt_canon::{Canon, WalkErr, Walker};

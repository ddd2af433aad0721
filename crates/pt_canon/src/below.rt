//! The crates below, by which those above name them.
pub use pt_bind;
pub use pt_bind::below::pr_base;

//! The crates below, by which those above name them.
pub use rv_mem;
pub use rv_mem::below::pr_base;

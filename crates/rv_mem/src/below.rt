//! The crates below, by which those above name them.
pub use rv_table;
pub use rv_table::below::pr_base;

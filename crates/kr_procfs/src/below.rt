//! The crates below, by which those above name them.
pub use kr_view;

//! The crates below, by which those above name them.
pub use kr_calls;
pub use kr_calls::below::rv_mem;
pub use kr_inode;

//! What those above name of the crates below.

pub use kr_inode::FILE_LIMIT;
pub use kr_inode::below::pr_base;

//! What those above name of the crates below.

pub use kr_tree;
pub use kr_tree::below::{FILE_LIMIT, pr_base};

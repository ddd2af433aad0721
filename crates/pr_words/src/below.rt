//! What those above name of the crates below.

pub use pr_base::limits::{MOST_BYTES, MOST_TEXTS, PATH_MAX};
pub use pr_base::{
    BaseKind, Bytes, Errno, NoMemory, PeekFault, PeekKind, Peeks, Texts, WalkMode, components,
    is_walked,
};

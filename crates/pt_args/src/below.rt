//! What those above name of the crates below.

pub use kr_calls;
pub use pt_canon;
pub use pt_canon::below::pr_base::limits::{MOST_BYTES, MOST_TEXTS};
pub use pt_canon::below::pr_base::{
    BaseKind, Bound, Bytes, Errno, Last, NoMemory, PeekFault, PeekKind, Peeks, Texts, WalkMode,
    components,
};
pub use pt_canon::below::pt_bind;

//! What those above name of the crates below.

pub use pt_args::below::kr_calls::{CallFault, Request, path_of};
pub use pt_args::below::pt_bind::{Table, Tags};
pub use pt_args::below::pt_canon::{Canon, WalkErr, Walker};
pub use pt_args::below::{
    BaseKind, Bound, Bytes, Errno, Last, NoMemory, PeekFault, PeekKind, Peeks, Texts, WalkMode,
    components,
};
pub use pt_args::laws::{edits_keep_to_paths, shelves_hold_their_items, texts_are_read_back};
pub use pt_args::{Edit, Reached, Rewritten, Shelf, Swaps, rewrite, rewrite_along};

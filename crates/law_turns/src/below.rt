//! What those above name of the crates below.

pub use pt_results::below::{shelves_hold_their_items, texts_are_read_back};

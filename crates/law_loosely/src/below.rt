//! What those above name of the crates below.

pub use law_machines;
pub use law_machines::below::{shelves_hold_their_items, texts_are_read_back};

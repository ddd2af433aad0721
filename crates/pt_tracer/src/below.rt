//! What those above name of the crates below.

pub use pt_faker::below::find_exec;
pub use pt_faker::{Faker, Watch};
pub use pt_results::below::{Tags, Walker, shelves_hold_their_items, texts_are_read_back};

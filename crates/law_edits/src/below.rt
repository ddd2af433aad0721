//! What those above name of the crates below.

pub use pt_tracer::below::shelves_hold_their_items;

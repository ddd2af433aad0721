//! What those above name of the crates below.

pub use law_starts::below::{shelves_hold_their_items, texts_are_read_back};
pub use pr_top::below::{
    Answer, CleanSink, CleanSource, End, FileSink, FileSource, Kept, MemSink, MemSource,
    ReplacingSink, Sink, Source, Which, Written, sources_that_tell_agree, tell,
};
pub use pr_top::open;

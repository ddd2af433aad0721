//! What those above name of the crates below.

pub use pr_run::below::{
    Answer, CleanSink, CleanSource, FileSink, FileSource, MemSink, MemSource, ReplacingSink, Sink,
    Source, Which, sources_that_tell_agree,
};
pub use pr_run::{End, Kept, Written, tell};

//! What those above name of the crates below.

pub use kr_loose::Loose;
pub use pr_sources::below::{
    BindFault, CleanSink, CleanSource, FileSink, FileSource, MemSink, MemSource, Mounted, Plain,
    ReplacingSink, Sink, Slots, Source,
};
pub use pr_sources::laws::sources_that_tell_agree;
pub use pr_sources::{Answer, Asked, Which, ask, read};

//! What those above name of the crates below.

pub use kr_start::below::{BindFault, Mounted, Plain, Tree, User, write};
pub use pr_io::below::{Bytes, NoMemory};
pub use pr_io::{
    CleanSink, CleanSource, FileSink, FileSource, MemSink, MemSource, PutFault, ReplacingSink,
    Sink, Source,
};
pub use pr_words::{Slot, Slots};

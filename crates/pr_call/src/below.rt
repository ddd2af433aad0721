//! What those above name of the crates below.

pub use law_loosely::below::law_machines::below::{
    CleanSink, CleanSource, End, Kept, MemSink, MemSource, Written, tell,
};

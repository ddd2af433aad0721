//! The process that makes a call, as a tracer knows it.

use pt_canon::below::pt_bind::Tags;
use std::alloc::Global;

/// The process that makes a call, and the tags of all processes.
#[derive(Clone, Copy)]
pub struct Caller<'a> {
    pub alloc: Global,
    pub tags: &'a Tags,
    pub pid: u32,
}

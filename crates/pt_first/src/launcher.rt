//! What the first program is found by.

use pt_script::below::Tags;
use std::alloc::Global;

/// What the first program is found by: the tags of all processes, and the guest text of the first working directory.
#[derive(Clone, Copy)]
pub(crate) struct Launcher<'a> {
    pub(crate) alloc: Global,
    pub(crate) tags: &'a Tags,
    pub(crate) working: &'a [u8],
}

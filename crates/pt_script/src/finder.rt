//! What a tracer finds programs by.

use pt_args::below::pt_bind::Tags;
use std::alloc::Global;

/// What programs are found by: the tags of all processes, and the guest text of the working directory, if it has one.
#[derive(Clone, Copy)]
pub struct Finder<'t, 'w> {
    pub alloc: Global,
    pub tags: &'t Tags,
    pub working: Option<&'w [u8]>,
}

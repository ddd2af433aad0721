//! Files that are to be run.

use crate::program::Program;
use pt_args::below::{Bytes, Texts};

/// A program, the path by which it was found, and its arguments.
#[derive(Drop)]
pub(crate) struct Command {
    pub(crate) program: Program,
    pub(crate) path: Bytes,
    pub(crate) args: Texts,
}

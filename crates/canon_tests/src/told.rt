//! What stands at the paths of a kernel in memory. The types alone are in the library, since definitions speak of them.

use pt_results::below::{Bytes, Errno};

/// What stands at a host path.
#[derive(Drop)]
pub enum Stands {
    Dir,
    File,
    Link(Bytes),
    Jump,
    Fails(Errno),
}

/// A host path, and what stands there.
#[derive(Drop)]
pub struct Row {
    pub host: Bytes,
    pub stands: Stands,
}

//! Where a directory stands.

use crate::node::Ino;

/// Where a directory stands: the inode of the directory above it, and the serial of its entry there.
#[derive(Clone, Copy, PartialEq)]
pub struct Standing {
    pub inode: Ino,
    pub serial: u64,
}

//! The one user of the machine, and what it may do.

/// The host user, as whom everything runs. Its `uid` isn't 0.
#[derive(Clone, Copy)]
pub struct User {
    pub uid: u32,
    pub gid: u32,
}

/// A right to a node. To execute a file is the right to search a directory.
#[derive(Clone, Copy)]
pub enum Right {
    Read,
    Write,
    Search,
}

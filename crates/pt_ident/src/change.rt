//! What is said of a file's owner and mode, and what is shown of them.

/// What a call says of a file.
#[derive(Clone, Copy)]
pub enum Change {
    /// chown(2): its owner and its group. A number of all ones leaves the one that is there.
    Own { uid: u32, gid: u32 },
    /// chmod(2): the low 12 bits of its mode. Higher bits say nothing.
    Mode { bits: u16 },
}

/// The owner, the group and the mode of a file, with its kind, as stat(2) shows them.
#[derive(Clone, Copy)]
pub struct Shown {
    pub uid: u32,
    pub gid: u32,
    pub mode: u32,
}

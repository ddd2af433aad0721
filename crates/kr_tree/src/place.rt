//! Places of a walk: what a mount and an inode, or a name below the process directory, stand for.

use kr_inode::Ino;

/// What stands in the process directory, as proc(5) names it. A `u32` in front is a process's number.
#[derive(Clone, Copy, PartialEq)]
pub enum ProcAt {
    /// The link `self`.
    SelfLink,
    /// The directory of a process.
    Dir(u32),
    /// Its link `cwd`.
    Cwd(u32),
    /// Its link `root`.
    Root(u32),
    /// Its link `exe`.
    Exe(u32),
    /// Its directory `fd`.
    FdDir(u32),
    /// The link of one of its descriptors.
    Fd(u32, u32),
}

/// An object of the host: an inode, or what stands in the process directory of that inode.
#[derive(Clone, Copy, PartialEq)]
pub enum Host {
    Node(Ino),
    Proc(Ino, ProcAt),
}

/// A place: an object of the host, seen in a mount.
#[derive(Clone, Copy)]
pub struct Place<M> {
    pub mount: M,
    pub host: Host,
}

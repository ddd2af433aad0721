//! What a call is told of the targets of its paths.

use kr_ops::below::{Host, Ino};
use kr_walk::below::Last;

/// A name in a directory.
#[derive(Clone, Copy)]
pub struct Entry<'a> {
    pub dir: Ino,
    pub name: &'a [u8],
}

/// What was found of a path that is looked up, and of what is no directory the entry that an opening remembers: of the source
/// of a mount the one at which it was settled.
#[derive(Clone, Copy)]
pub struct Looked<'a> {
    pub host: Host,
    pub entry: Option<Entry<'a>>,
}

/// An entry that is there or free: its directory and name, whether a slash stands behind it, and what was found.
#[derive(Clone, Copy)]
pub struct Entered<'a> {
    pub dir: Host,
    pub name: &'a [u8],
    pub slash: bool,
    pub found: Option<Host>,
}

/// An entry to be taken away or moved.
#[derive(Clone, Copy)]
pub enum Taken<'a> {
    /// The path ends in no name.
    NoName(Last),
    /// A mount stands there.
    Covered,
    Takes(Entered<'a>),
}

/// An entry to be made.
#[derive(Clone, Copy)]
pub enum Made<'a> {
    /// The path ends in no name.
    NoName(Last),
    /// An entry is there.
    Over,
    Makes {
        dir: Host,
        name: &'a [u8],
        slash: bool,
    },
}

/// A file to be opened. All but `Found` are of files that may be made.
#[derive(Clone, Copy)]
pub enum Opening<'a> {
    /// The path ends in no name.
    NoName(Last),
    /// A slash stands behind the name.
    Slashed,
    Found(Looked<'a>),
    /// A file that is to be made.
    New { dir: Host, name: &'a [u8] },
}

/// What gets another name, and the new entry; whether both are in one mount.
#[derive(Clone, Copy)]
pub struct Linked<'a> {
    pub old: Looked<'a>,
    pub new: Made<'a>,
    pub same_mount: bool,
}

/// The old entry and the new one; whether both directories are in one mount.
#[derive(Clone, Copy)]
pub struct Moved<'a> {
    pub old: Taken<'a>,
    pub new: Taken<'a>,
    pub same_mount: bool,
}

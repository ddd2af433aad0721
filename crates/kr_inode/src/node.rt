//! What a caller hands in and is told of a node.

use pr_base::Bytes;

/// The number of an inode. The root has 1; numbers aren't used again.
pub type Ino = u32;

/// Mode, owner and group of a node, how many names it has and how many bytes. Of a directory the
/// size is 0. Where it is handed in, `names` and `size` aren't read.
#[derive(Clone, Copy)]
pub struct Meta {
    pub mode: u16,
    pub uid: u32,
    pub gid: u32,
    pub names: u32,
    pub size: u64,
}

/// The kind of a node. `Proc` is the process directory.
#[derive(Clone, Copy, PartialEq)]
pub enum Kind {
    Dir,
    File,
    Link,
    Proc,
}

/// A node that is to be added: a directory without entries, a file with its bytes, a link with its
/// text, or the process directory.
#[derive(Drop)]
pub enum Node {
    Dir,
    File(Bytes),
    Link(Bytes),
    Proc,
}

/// The most bytes of one file.
pub const FILE_LIMIT: usize = 16_777_216;

impl Node {
    ghost use Rattle.std.specs.Prelude.{◌≡◌, length};
    ghost use Rattle.kr_inode.specs.Inode.{is_directory, bytes_of};
    ghost use Rattle.kr_inode.specs.Changes.{is_too_big};
    ghost use Rattle.kr_inode.specs.Stored.{body_of_new};

    /// Whether it is a directory, as the process directory is.
    pub fn is_directory(&self) -> bool
        ensures { result ≡ is_directory (body_of_new self.now) }
    {
        matches!(self, Node::Dir | Node::Proc)
    }

    /// How many bytes it has.
    pub fn size(&self) -> u64
        ensures { result ≡ length (bytes_of (body_of_new self.now)) }
    {
        match self {
            Node::File(bytes) | Node::Link(bytes) => bytes.len() as u64,
            Node::Dir | Node::Proc => 0,
        }
    }

    /// Whether it is a file with too many bytes.
    pub fn is_too_big(&self) -> bool
        ensures { result ≡ is_too_big (body_of_new self.now) }
    {
        match self {
            Node::File(bytes) => FILE_LIMIT < bytes.len(),
            _ => false,
        }
    }
}

//! What a call hands on.

/// What a call hands from where it is carried out to its second stop, beside the state of the kernel.
#[derive(Clone, Copy)]
pub struct Handed {
    /// Whether its first path led to the root of the view. That of execve(2) isn't told.
    pub at_root: bool,
    /// The inode to which its first path led, or the one in a path's place. That of execve(2) isn't told.
    pub target: Option<u64>,
}

/// A call that wasn't carried out yet, or that was refused, hands nothing on.
pub const NOTHING_HANDED: Handed = Handed {
    at_root: false,
    target: None,
};

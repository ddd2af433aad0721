//! What is remembered of one file.
ghost use Rattle.std.specs.Prelude.{◌≡◌};
ghost use Rattle.pt_ident.specs.Owners.{given};

use crate::change::{Change, Shown};
use kr_inode::below::pr_base::limits::MODES;

/// What is remembered of one file: each number is given or not.
#[derive(Clone, Copy)]
pub struct Entry {
    uid: Option<u32>,
    gid: Option<u32>,
    bits: Option<u16>,
}

/// The number that leaves an owner or a group as it is.
const NO_NUMBER: u32 = 0xffff_ffff;

impl Entry {
    ghost use Rattle.pt_ident.specs.Owners.{over, shown_by, unsaid};

    /// Nothing is given.
    pub(crate) fn new() -> Entry
        ensures { result ≡ unsaid }
    {
        Entry {
            uid: None,
            gid: None,
            bits: None,
        }
    }

    /// With a change: what it gives takes the place of what was given.
    pub(crate) fn with(self, change: Change) -> Entry
        ensures { result ≡ over self change }
    {
        match change {
            Change::Own { uid, gid } => Entry {
                uid: given(uid, self.uid),
                gid: given(gid, self.gid),
                bits: self.bits,
            },
            Change::Mode { bits } => Entry {
                uid: self.uid,
                gid: self.gid,
                bits: Some(bits % 0o10000),
            },
        }
    }

    /// What is shown over `base`.
    pub(crate) fn shown(self, base: Shown) -> Shown
        ensures { result ≡ shown_by self base }
    {
        let mode = match self.bits {
            None => base.mode,
            Some(bits) => base.mode / MODES * MODES + u32::from(bits) % MODES,
        };
        Shown {
            uid: self.uid.unwrap_or(base.uid),
            gid: self.gid.unwrap_or(base.gid),
            mode,
        }
    }
}

/// A number that is said, or what was given before.
fn given(id: u32, before: Option<u32>) -> Option<u32>
    ensures { result ≡ given id before }
{
    if id == NO_NUMBER { before } else { Some(id) }
}

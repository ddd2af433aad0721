//! What a tracer's walk answers.
ghost use Rattle.std.specs.Prelude.{◌≡◌, IfOk};

use pt_bind::below::pr_base::{Bytes, Errno, Last, NoMemory, PeekFault};
use std::alloc::Global;

/// Where a path leads in the guest.
#[derive(Drop)]
pub struct Canon {
    /// The guest text of what was found. Where the last name may be free: of that entry, found or free, and behind
    /// any other last component of the directory.
    pub guest: Bytes,
    /// The host text of that guest text.
    pub host: Bytes,
    /// The index of the binding to which it belongs.
    pub index: u32,
    /// What the path ends with.
    pub last: Last,
    /// A slash stands behind the last component.
    pub slash: bool,
    /// Something was found. Where the last name may be free: an entry of that name.
    pub exists: bool,
}

impl Canon {
    /// A copy.
    pub(crate) fn copy(&self, alloc: Global) -> Result<Canon, NoMemory>
        ensures { IfOk result (λ copy. copy ≡ self.now) }
    {
        let guest = Bytes::copy(alloc, self.guest.as_slice())?;
        let host = Bytes::copy(alloc, self.host.as_slice())?;
        Ok(Canon {
            guest,
            host,
            index: self.index,
            last: self.last,
            slash: self.slash,
            exists: self.exists,
        })
    }
}

/// Why a walk has no answer.
#[derive(Clone, Copy)]
pub enum WalkErr {
    /// It fails.
    Err(Errno),
    NoMemory,
}

impl From<NoMemory> for WalkErr {
    ghost use Rattle.std.specs.Prelude.{◌≡◌};
    ghost use Rattle.pt_canon.specs.declared.canon.WalkErr.TheVariants.{NoMemory as WantOfMemory};

    ghost from_gives = { λ error fault. fault ≡ WantOfMemory };

    fn from(_error: NoMemory) -> WalkErr {
        WalkErr::NoMemory
    }
}

impl From<PeekFault> for WalkErr {
    ghost use Rattle.std.specs.Prelude.{◌≡◌};
    ghost use Rattle.pt_canon.specs.Canon.{error_of};

    ghost from_gives = { λ fault error. error ≡ error_of fault };

    fn from(fault: PeekFault) -> WalkErr {
        match fault {
            PeekFault::Err(errno) => WalkErr::Err(errno),
            PeekFault::NoMemory => WalkErr::NoMemory,
        }
    }
}

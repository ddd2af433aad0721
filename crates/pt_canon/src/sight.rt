//! What a tracer sees of a guest text.
ghost use Rattle.std.specs.Prelude.{◌≡◌, Bool, Result, Ok, Err};
ghost use Rattle.pt_bind.specs.pr_base.Peeks.{IsNoted, IsPeeked};
ghost use Rattle.pt_bind.specs.pr_base.Texts.{Text};
ghost use Rattle.pt_bind.specs.pr_base.declared.errno.Errno.{Errno};
ghost use Rattle.pt_bind.specs.pr_base.declared.peeks.PeekKind.{PeekKind};
ghost use Rattle.pt_canon.specs.Canon.{IsWalkNoted};
ghost use Rattle.pt_canon.specs.TextWalk.{TextSurroundings, seen_kind};
ghost use Rattle.pt_canon.specs.Looks.{IsSeen};

use crate::canon::WalkErr;
use pt_bind::below::pr_base::{Bytes, Errno, PeekFault};

/// What is known of a guest text from the peeks before.
#[derive(Clone, Copy)]
pub(crate) enum Known {
    Nothing,
    /// Its host text is that of a directory.
    Directory,
    /// And that may be searched.
    Open,
}

/// What stands at a guest text.
#[derive(Drop)]
pub(crate) enum Sight {
    Missing,
    Directory,
    /// What is neither a directory nor a link.
    File,
    /// A link with its text.
    Links(Bytes),
    /// A link of the process directory without a text of its own.
    Jumps,
}

/// What a peek that wasn't answered shows.
pub(crate) fn unseen(fault: PeekFault) -> Result<Sight, WalkErr>
    ensures seen { (texts : TextSurroundings) (t host : Text) (told : Result PeekKind Errno) → IsPeeked told (Err fault) → IsSeen texts t (seen_kind texts t host told) result }
    ensures noted { (after new : Bool) → IsNoted {T = PeekKind} after new (Err fault) → IsWalkNoted after new result }
{
    match fault {
        PeekFault::Err(Errno::ENOENT) => Ok(Sight::Missing),
        PeekFault::Err(errno) => Err(WalkErr::Err(errno)),
        PeekFault::NoMemory => Err(WalkErr::NoMemory),
    }
}

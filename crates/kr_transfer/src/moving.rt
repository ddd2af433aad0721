//! Bytes that are moved between calls and pieces of the caller's memory.
ghost use Rattle.std.specs.Prelude.{◌≡◌, ◌<◌, ◌≤◌, ◌^◌, ℕ, List, true, false, length, IfOk, IfSome, OnOk, OnErr, IsErrOf, take, drop};
ghost use Rattle.kr_seen.specs.pr_base.declared.errno.Errno.TheVariants.{EFAULT as Fault};
ghost use Rattle.kr_seen.specs.rv_mem.declared.rights.Use.TheVariants.{Read, Write};
ghost use Rattle.kr_seen.specs.kr_model.Change.{Change};
ghost use Rattle.kr_seen.specs.kr_model.Pieces.{asked, cut_to, hand, laid_into, read_all, write_all};
ghost use Rattle.kr_seen.specs.kr_model.Reply.{Replying, done, refuse};
ghost use Rattle.kr_seen.specs.kr_ops.Making.{IsAsBefore};
ghost use Rattle.kr_seen.specs.kr_ops.Meaning.{meaning};
ghost use Rattle.kr_seen.specs.kr_ops.Sound.{IsSoundFor};
ghost use Rattle.kr_seen.specs.PerformedRows.{memory_of};
ghost use Rattle.kr_seen.specs.Using.{HasComeTo};
ghost use Rattle.kr_transfer.specs.Moving.{all_allowed, told, LeavesOthers, OnlyReads};

use crate::pieces::Piece;
use kr_seen::below::{Bytes, NoMemory, State, StoreFault, Use};
use kr_seen::caller::{self, LoadFault};
use std::alloc::Global;

/// The most bytes that one call moves.
pub(crate) const MOVE_LIMIT: u64 = 0x7fff_f000;

/// What a state's memory comes from.
pub(crate) fn allocator_of<T: Copy, const M: u8>(state: &State<T, M>) -> Global {
    *state.living.allocator()
}

/// At most `n` bytes from a place on.
pub(crate) fn part(bytes: &[u8], at: u64, n: u64) -> &[u8]
    ensures { result.now ≡ take n (drop at bytes.now) }
{
    let rest = &bytes[bytes.len().min(at as usize)..];
    &rest[..rest.len().min(n as usize)]
}

/// Whether the first `n` bytes of pieces may all be used so.
pub(crate) fn may_use_all<T: Copy, const M: u8>(
    state: &State<T, M>,
    pid: u32,
    pieces: &[Piece],
    n: u64,
    what: Use,
) -> bool
    requires { IsSoundFor pid state.now }
    ensures { result ≡ all_allowed (memory_of pid (meaning state.now)).pages what (cut_to n (told pieces.now)) }
{
    let mut left = n;
    for piece in pieces {
        let count = left.min(piece.count);
        if !caller::may_use(state, pid, piece.at, count, what) {
            return false;
        }
        left -= count;
    }
    true
}

/// The first `n` bytes of pieces that may all be read.
pub(crate) fn read_all<T: Copy, const M: u8>(
    state: &mut State<T, M>,
    pid: u32,
    pieces: &[Piece],
    n: u64,
) -> Result<Bytes, NoMemory>
    requires caller { IsSoundFor pid state.old }
    requires allowed { all_allowed (memory_of pid (meaning state.old)).pages Read (cut_to n (told pieces.now)) ≡ true }
    ensures comes { IfOk result (λ bytes. (next : List ℕ → Replying) → HasComeTo pid (read_all (cut_to n (told pieces.now)) next) state.old (next bytes) state.new) }
    ensures count { IfOk result (λ bytes. length bytes ≡ asked (cut_to n (told pieces.now))) }
    ensures reads { OnOk result (OnlyReads pid state.old state.new) }
{
    let mut bytes = Bytes::new(allocator_of(state));
    let mut left = n;
    for piece in pieces {
        let count = left.min(piece.count);
        match caller::read(state, pid, piece.at, count as usize) {
            Ok(part) => bytes.append(part.as_slice())?,
            Err(LoadFault::NoMemory) => return Err(NoMemory),
            Err(LoadFault::BadAddress) => unreachable!(),
        }
        left -= count;
    }
    Ok(bytes)
}

/// Writes bytes into pieces that may all be written, in their order.
pub(crate) fn write_all<T: Copy, const M: u8>(
    state: &mut State<T, M>,
    pid: u32,
    pieces: &[Piece],
    bytes: &[u8],
) -> Result<(), NoMemory>
    requires caller { IsSoundFor pid state.old }
    requires allowed { all_allowed (memory_of pid (meaning state.old)).pages Write (cut_to (length bytes.now) (told pieces.now)) ≡ true }
    ensures comes { OnOk result ((next : Replying) → HasComeTo pid (write_all (laid_into (cut_to (length bytes.now) (told pieces.now)) bytes.now) next) state.old next state.new) }
    ensures leaves { OnOk result (LeavesOthers pid state.old state.new) }
{
    let mut done = 0;
    for piece in pieces {
        let count = ((bytes.len() - done) as u64).min(piece.count) as usize;
        match caller::write(state, pid, piece.at, &bytes[done..done + count]) {
            Ok(()) => {}
            Err(StoreFault::NoMemory) => return Err(NoMemory),
            Err(StoreFault::BadAddress) => unreachable!(),
        }
        done += count;
    }
    Ok(())
}

/// Hands bytes to the caller, of which there are some, where all pieces that they go into may be written.
pub(crate) fn hand<T: Copy, const M: u8>(
    state: &mut State<T, M>,
    pid: u32,
    pieces: &[Piece],
    bytes: &[u8],
) -> Result<(), StoreFault>
    requires caller { IsSoundFor pid state.old }
    requires some { 0 < length bytes.now }
    ensures ok { OnOk result ((changes : List Change) → HasComeTo pid (hand (told pieces.now) bytes.now changes) state.old (done (length bytes.now) changes) state.new) }
    ensures leaves { OnOk result (LeavesOthers pid state.old state.new) }
    ensures bad { IsErrOf result StoreFault.BadAddress → ((changes : List Change) → HasComeTo pid (hand (told pieces.now) bytes.now changes) state.old (refuse Fault) state.old) }
    ensures err { IsErrOf result StoreFault.BadAddress → IsAsBefore state.old state.new }
{
    if !may_use_all(state, pid, pieces, bytes.len() as u64, Use::Write) {
        return Err(StoreFault::BadAddress);
    }
    match write_all(state, pid, pieces, bytes) {
        Ok(()) => Ok(()),
        Err(NoMemory) => Err(StoreFault::NoMemory),
    }
}

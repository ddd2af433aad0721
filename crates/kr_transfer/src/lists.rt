//! Lists of pieces in the caller's memory, as readv(2) and writev(2) name them.
ghost use Rattle.std.specs.Prelude.{◌≡◌, ◌≢◌, ◌≤◌, ◌*◌, List, length, take, drop, ◌+◌, IfOk, IsErrOf};
ghost use Rattle.std.specs.Int.{from_le_bytes, w64};
ghost use Rattle.kr_seen.specs.pr_base.declared.errno.Errno.{Errno};
ghost use Rattle.kr_seen.specs.kr_model.Pieces.{asked, cut_to, move_limit, pieces_of, with_list, Piece as ModelPiece};
ghost use Rattle.kr_seen.specs.kr_model.Reply.{refusal, refuse, Replying};
ghost use Rattle.kr_seen.specs.kr_model.declared.outcome.Outcome.TheVariants.{NoMemory as WantOfMemory};
ghost use Rattle.kr_seen.specs.kr_ops.Sound.{IsSoundFor};
ghost use Rattle.kr_seen.specs.Using.{HasComeTo};
ghost use Rattle.kr_transfer.specs.Moving.{told, OnlyReads};

use crate::moving::{MOVE_LIMIT, allocator_of};
use crate::pieces::{Piece, total};
use kr_seen::below::{Errno, MOST_PIECES, NoMemory, Outcome, State};
use kr_seen::caller::{self, LoadFault};
use kr_seen::refused;
use std::alloc::Global;

/// How many bytes an entry of a list has: an address and a length.
const ENTRY_SIZE: usize = 16;

/// Pieces, and how many bytes they have.
#[derive(Drop)]
pub(crate) struct PieceList {
    pub pieces: Vec<Piece>,
    pub count: u64,
}

/// Why a list isn't used.
#[derive(Clone, Copy)]
pub(crate) enum ListFault {
    Refused(Errno),
    NoMemory,
}

/// What a call answers whose list isn't used.
pub(crate) fn answer_of(fault: ListFault) -> Outcome
    ensures refused { (e : Errno) → fault ≡ ListFault.Refused e → result ≡ (refusal e).outcome }
    ensures memory { fault ≡ ListFault.NoMemory → result ≡ WantOfMemory }
{
    match fault {
        ListFault::Refused(errno) => refused(errno),
        ListFault::NoMemory => Outcome::NoMemory,
    }
}

/// The number in the eight bytes from a place on, the lowest first.
fn number_at(bytes: &[u8], at: usize) -> u64
    requires { at + 8 ≤ length bytes.now }
    ensures { result ≡ from_le_bytes w64 (take 8 (drop at bytes.now)) }
{
    let mut field = [0; 8];
    field.copy_from_slice(&bytes[at..at + 8]);
    u64::from_le_bytes(field)
}

/// The pieces of a list's bytes.
fn decode(alloc: Global, bytes: &[u8], count: usize) -> Result<Vec<Piece>, NoMemory>
    requires { 16 * count ≡ length bytes.now }
    ensures { IfOk result (λ pieces. told pieces.items ≡ pieces_of count bytes.now) }
{
    let mut pieces = Vec::new(alloc);
    for i in 0..count {
        let entry = ENTRY_SIZE * i;
        let at = number_at(bytes, entry);
        let count = number_at(bytes, entry + 8);
        pieces.push(Piece { at, count })?;
    }
    Ok(pieces)
}

/// The first `n` bytes of pieces.
fn cut(alloc: Global, pieces: &[Piece], n: u64) -> Result<Vec<Piece>, NoMemory>
    ensures { IfOk result (λ cut. told cut.items ≡ cut_to n (told pieces.now)) }
{
    let mut cut = Vec::new(alloc);
    let mut left = n;
    for piece in pieces {
        let count = left.min(piece.count);
        let at = piece.at;
        cut.push(Piece { at, count })?;
        left -= count;
    }
    Ok(cut)
}

/// The pieces of a list of `count` entries, cut at the most bytes that one call moves: EINVAL of more than 1,024 entries,
/// EFAULT where the list can't be read, EINVAL where the lengths sum to more than a signed number of 64 bits holds.
pub(crate) fn read_list<T: Copy, const M: u8>(
    state: &mut State<T, M>,
    pid: u32,
    list: u64,
    count: u64,
) -> Result<PieceList, ListFault>
    requires { IsSoundFor pid state.old }
    ensures ok { IfOk result (λ read. (next : List ModelPiece → Replying) → HasComeTo pid (with_list list count next) state.old (next (told read.pieces.items)) state.new) }
    ensures counted { IfOk result (λ read. (read.count ≡ asked (told read.pieces.items)) × (read.count ≤ move_limit)) }
    ensures refused { (e : Errno) → IsErrOf result (ListFault.Refused e) → (next : List ModelPiece → Replying) → HasComeTo pid (with_list list count next) state.old (refuse e) state.new }
    ensures reads { ¬ IsErrOf result ListFault.NoMemory → OnlyReads pid state.old state.new }
{
    if MOST_PIECES < count {
        return Err(ListFault::Refused(Errno::EINVAL));
    }
    let bytes = match caller::read(state, pid, list, ENTRY_SIZE * count as usize) {
        Ok(bytes) => bytes,
        Err(LoadFault::BadAddress) => return Err(ListFault::Refused(Errno::EFAULT)),
        Err(LoadFault::NoMemory) => return Err(ListFault::NoMemory),
    };
    let pieces = match decode(allocator_of(state), bytes.as_slice(), count as usize) {
        Ok(pieces) => pieces,
        Err(NoMemory) => return Err(ListFault::NoMemory),
    };
    let Some(asked) = total(pieces.as_slice()) else {
        return Err(ListFault::Refused(Errno::EINVAL));
    };
    match cut(allocator_of(state), pieces.as_slice(), MOVE_LIMIT) {
        Ok(pieces) => Ok(PieceList {
            pieces,
            count: asked.min(MOVE_LIMIT),
        }),
        Err(NoMemory) => Err(ListFault::NoMemory),
    }
}

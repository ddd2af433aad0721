//! Pieces of the caller's memory.
ghost use Rattle.std.specs.Prelude.{◌≡◌, ◌≤◌, ◌<◌, ◌^◌, IfNone, IfSome};
ghost use Rattle.kr_seen.specs.kr_model.Pieces.{asked};
ghost use Rattle.kr_transfer.specs.Moving.{told};

/// `count` bytes at the address `at`.
#[derive(Clone, Copy)]
pub struct Piece {
    pub at: u64,
    pub count: u64,
}

/// The most bytes that a list of pieces may have.
const MOST_ASKED: u64 = i64::MAX as u64;

/// How many bytes the pieces have, `None` exactly where that is above the largest signed number of 64 bits.
pub(crate) fn total(pieces: &[Piece]) -> Option<u64>
    ensures none { IfNone result (MOST_ASKED < asked (told pieces.now)) }
    ensures some { IfSome result (λ n. (n ≡ asked (told pieces.now)) × (n ≤ MOST_ASKED)) }
{
    let mut sum = 0;
    for piece in pieces {
        if MOST_ASKED - sum < piece.count {
            return None;
        }
        sum += piece.count;
    }
    Some(sum)
}

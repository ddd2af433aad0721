//! What calls of a guest answer.
ghost use Rattle.std.specs.Prelude.{◌≡◌, pos};
ghost use Rattle.kr_ops.specs.kr_model.Reply.{refusal};
ghost use Rattle.kr_ops.specs.kr_model.declared.outcome.Outcome.TheVariants.{Answer};

use kr_ops::below::Outcome;
use kr_walk::below::Errno;

/// A refused call answers the negated number of the error.
pub fn refused(errno: Errno) -> Outcome
    ensures { result ≡ (refusal errno).outcome }
{
    Outcome::Answer(-i64::from(errno.number()))
}

/// The answer is a number.
pub fn number(number: u32) -> Outcome
    ensures { result ≡ Answer (pos number) }
{
    Outcome::Answer(i64::from(number))
}

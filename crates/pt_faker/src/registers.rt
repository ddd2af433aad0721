//! The registers of a call on RISC-V, and what a second stop does to them.
ghost use Rattle.std.specs.Prelude.{◌≡◌, ◌==◌, ◌&&◌};
ghost use Rattle.elf_load.specs.pr_base.declared.errno.Errno.TheVariants.{EPERM};
ghost use Rattle.kr_stops.specs.Editing.{register_at};
ghost use Rattle.pt_faker.specs.Stopping.{OnlyEdits};
ghost use Rattle.pt_ident.specs.Identity.{refusal};
ghost use Rattle.pt_faker.specs.Faking.{forgiven, has_answered_zero, no_longer_called, told, word_of};

use crate::memory::refused;
use elf_load::below::pr_base::Errno;
use kr_stops::Tracee;

/// a7, which has the number of a call.
const NUMBER: u8 = 17;

/// a0, which has its answer.
pub(crate) const ANSWER: u8 = 10;

/// The stack pointer.
pub const STACK: u8 = 2;

/// No call has the number of all ones.
const NO_CALL: u64 = 0xffff_ffff_ffff_ffff;

/// Takes the number of a call away, so that the kernel finds none, and gives it.
pub fn take_number<T: Tracee>(t: &mut T) -> u64
    ensures number { result ≡ register_at (T.stopped t.old) 17 }
    ensures taken { T.stopped t.new ≡ no_longer_called (T.stopped t.old) }
    ensures edits { OnlyEdits T.stopped T.around t.old t.new }
{
    // For the proof alone: the process lives.
    let _pid = t.pid();
    let number = t.reg(NUMBER);
    t.set_reg(NUMBER, NO_CALL);
    number
}

/// Gives the number of a call back, and tells an answer.
pub fn tell<T: Tracee>(t: &mut T, number: u64, answer: i64)
    ensures tells { T.stopped t.new ≡ told number answer (T.stopped t.old) }
    ensures edits { OnlyEdits T.stopped T.around t.old t.new }
{
    // For the proof alone: the process lives.
    let _pid = t.pid();
    t.set_reg(NUMBER, number);
    t.set_reg(ANSWER, answer.cast_unsigned());
}

/// An answer that is an error of permission becomes 0, where it may.
pub fn forgive<T: Tracee>(t: &mut T, may: bool)
    ensures forgives { T.stopped t.new ≡ forgiven may (T.stopped t.old) }
    ensures edits { OnlyEdits T.stopped T.around t.old t.new }
{
    // For the proof alone: the process lives.
    let _pid = t.pid();
    if is_forgiven(may, t.reg(ANSWER)) {
        t.set_reg(ANSWER, 0);
    }
}

/// Whether an answer is an error of permission, and may become 0.
fn is_forgiven(may: bool, answer: u64) -> bool
    ensures { result ≡ (may && (answer == word_of (refusal EPERM))) }
{
    may && answer == refused(Errno::EPERM).cast_unsigned()
}

/// Whether the answer is 0.
pub fn has_answered_zero<T: Tracee>(t: &T) -> bool
    ensures { result ≡ has_answered_zero (T.stopped t.now) }
{
    t.reg(ANSWER) == 0
}

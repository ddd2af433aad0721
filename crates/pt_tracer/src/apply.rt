//! What a plan does to the process.
ghost use Rattle.std.specs.Prelude.{◌≡◌, IfOk, Some};
ghost use Rattle.pt_faker.specs.Stopping.{OnlyEdits};
ghost use Rattle.pt_tracer.specs.Watched.{applied, refused};

use crate::pokes::{may_poke, poke_all};
use crate::registers::set_all;
use pt_faker::Tracee;
use pt_faker::below::{Errno, NoMemory};
use pt_faker::memory::refused as number_of;
use pt_faker::registers::take_number;
use pt_results::below::Edit;

/// Shows the kernel what is planned of a call. The answer is given where it finds no call: an error, EFAULT where bytes can't be written,
/// or the number that was planned. After want of memory the process may only be dropped.
pub(crate) fn apply<T: Tracee>(t: &mut T, edit: Edit) -> Result<Option<i64>, NoMemory>
    ensures applied { IfOk result (λ answer. record { answer = answer; stopped = T.stopped t.new } ≡ applied edit (T.stopped t.old)) }
    ensures edits { OnlyEdits T.stopped T.around t.old t.new }
{
    // For the proof alone: the process lives.
    let _pid = t.pid();
    match edit {
        Edit::Pass => Ok(None),
        Edit::Cancel(errno) => Ok(Some(refuse(t, errno))),
        Edit::Swap { regs, pokes } => {
            if !may_poke(t, pokes.as_slice()) {
                return Ok(Some(refuse(t, Errno::EFAULT)));
            }
            poke_all(t, pokes.as_slice())?;
            set_all(t, regs.as_slice());
            Ok(None)
        }
        Edit::Emulate { pokes, answer } => {
            if !may_poke(t, pokes.as_slice()) {
                return Ok(Some(refuse(t, Errno::EFAULT)));
            }
            poke_all(t, pokes.as_slice())?;
            let _number = take_number(t);
            Ok(Some(answer))
        }
    }
}

/// Takes a call away, and gives the negated number of an error as its answer.
fn refuse<T: Tracee>(t: &mut T, errno: Errno) -> i64
    ensures refused { record { answer = Some result; stopped = T.stopped t.new } ≡ refused errno (T.stopped t.old) }
    ensures edits { OnlyEdits T.stopped T.around t.old t.new }
{
    // For the proof alone: the process lives.
    let _pid = t.pid();
    let _number = take_number(t);
    number_of(errno)
}

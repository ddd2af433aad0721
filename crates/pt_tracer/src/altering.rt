//! Calls that can alter the shape of the tree.
ghost use Rattle.std.specs.Prelude.{◌≡◌, ◌%◌, ◌^◌};
ghost use Rattle.pt_faker.specs.kr_model.FileRows.{creates};
ghost use Rattle.pt_faker.specs.kr_stops.Remembering.{can_alter_shape, is_shape_call};
ghost use Rattle.pt_faker.specs.kr_stops.Stopped.{image_at};

use crate::registers::{A2, A7};
use pt_faker::Tracee;

/// The numbers of mkdirat, unlinkat, symlinkat and linkat, of fchmod, fchmodat, fchownat and fchown, and of renameat2.
const SHAPE_CALLS: [u64; 9] = [34, 35, 36, 37, 52, 53, 54, 55, 276];

/// The number of openat.
const OPENAT: u64 = 56;

/// O_CREAT, with which openat makes what isn't there.
const CREATES: u32 = 0o100;

/// Whether a process is about to make a call that can alter the shape of the tree, by its registers, decoded or not.
pub(crate) fn can_alter_shape<T: Tracee>(t: &T) -> bool
    ensures { result ≡ can_alter_shape (image_at (T.stopped t.now)).regs }
{
    let number = t.reg(A7);
    is_shape_call(number) || number == OPENAT && creates(t.reg(A2))
}

/// Whether a number is that of a call that makes, removes or moves a name, or sets a mode or an owner.
fn is_shape_call(number: u64) -> bool
    ensures { result ≡ is_shape_call number }
{
    SHAPE_CALLS.iter().any(|call| number == *call)
}

/// Whether openat(2) may make a file, by its flags, which are the low half of their register.
fn creates(flags: u64) -> bool
    ensures { result ≡ creates (flags % 2 ^ 32) }
{
    let flags = (flags % 0x1_0000_0000) as u32;
    flags & CREATES == CREATES
}

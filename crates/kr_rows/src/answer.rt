//! What calls answer, and the descriptors that they name.
ghost use Rattle.std.specs.Prelude.{◌≡◌, ◌&&◌};
ghost use Rattle.kr_seen.specs.kr_calls.Arguments.{has};
ghost use Rattle.kr_seen.specs.kr_model.Asking.{descriptor_number};
ghost use Rattle.kr_seen.specs.kr_model.Known.{known};
ghost use Rattle.kr_seen.specs.kr_model.State.{image_layout};
ghost use Rattle.kr_seen.specs.kr_ops.Meaning.{meaning};
ghost use Rattle.kr_seen.specs.kr_ops.Sound.{IsSound};
ghost use Rattle.kr_seen.specs.PerformedRows.{open_number};

use kr_seen::below::State;
pub use kr_seen::{number, refused};

/// Whether flags have all of these bits.
pub(crate) fn has(flags: u32, bits: u32) -> bool
    ensures { result ≡ has flags bits }
{
    flags & bits == bits
}

/// Whether both hold.
pub(crate) fn both(first: bool, second: bool) -> bool
    ensures { result ≡ (first && second) }
{
    first && second
}

/// A number that isn't negative, `None` exactly where it is.
pub(crate) fn natural(number: i32) -> Option<u32>
    ensures { result ≡ descriptor_number number }
{
    u32::try_from(number).ok()
}

/// The number of a descriptor that is open in a process, `None` exactly where it isn't.
pub fn open_number<T: Copy, const M: u8>(state: &State<T, M>, pid: u32, fd: i32) -> Option<u32>
    requires { IsSound state.now }
    ensures { result ≡ open_number (known image_layout pid (meaning state.now)) fd }
{
    let number = natural(fd)?;
    state.opened(pid, number)?;
    Some(number)
}

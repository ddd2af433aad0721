//! Marked bytes that were read.
ghost use Rattle.std.specs.Prelude.{◌≡◌};
ghost use Rattle.kr_perform.specs.kr_seen.Carrying.{memory_of};
ghost use Rattle.kr_perform.specs.kr_ops.Meaning.{meaning};
ghost use Rattle.kr_perform.specs.kr_ops.Sound.{IsSound};

use kr_perform::below::State;

/// Whether a marked byte of the memory of a process was read so far; none was of one that doesn't live.
pub fn marks_read<T: Copy, const M: u8>(state: &State<T, M>, pid: u32) -> bool
    requires { IsSound state.now }
    ensures { result ≡ (memory_of pid (meaning state.now)).read_marked }
{
    match state.index_of(pid) {
        Some(k) => state.living[k].mem.mark_was_read(),
        None => false,
    }
}

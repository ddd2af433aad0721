//! The shelf of a call, in the state of its kernel.
ghost use Rattle.std.specs.Prelude.{◌≡◌, ℕ, List};
ghost use Rattle.kr_steps.specs.Calls.{Runs};
ghost use Rattle.kr_steps.specs.kr_model.State.{process};
ghost use Rattle.kr_hostview.specs.kr_ops.Meaning.{meaning};
ghost use Rattle.kr_hostview.specs.kr_ops.Sound.{IsSoundFor};
ghost use Rattle.kr_turns.specs.Shelving.{lacks_in, shelved_in};
ghost use Rattle.kr_execve.specs.kr_view.View.{Row};

use kr_calm::mark_shelf;
use kr_hostview::below::State;
use kr_steps::below::Use;

/// Marks the shelf of a living process that stands at a call with a path. Whether such a call has no shelf. Where marks aren't kept it
/// does nothing.
pub(crate) fn shelve<T: Copy, const M: u8>(state: &mut State<T, M>, pid: u32) -> bool
    requires { IsSoundFor pid state.old }
    ensures marks { meaning state.new ≡ shelved_in M pid (meaning state.old) }
    ensures lacks { result ≡ lacks_in M pid (meaning state.old) }
    ensures runs { (number : T → ℕ) (table : List Row) (calls : ℕ) → Runs number table calls state.old → Runs number table calls state.new }
{
    let Some(k) = state.index_of(pid) else {
        unreachable!();
    };
    let process = &mut state.living[k];
    let lacks = mark_shelf(&process.regs, &mut process.mem);
    // For the proof alone: its pages are whole and lie where a memory can have pages.
    let _can = process.mem.can(0, 0, Use::Read);
    lacks
}

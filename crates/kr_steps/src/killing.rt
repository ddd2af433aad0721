//! A process that dies of an instruction.
ghost use Rattle.std.specs.Prelude.{ℕ, List, OnOk};
ghost use Rattle.kr_perform.specs.Calling.{Runs};
ghost use Rattle.kr_perform.specs.kr_model.Change.{End};
ghost use Rattle.kr_perform.specs.kr_ops.Making.{Makes};
ghost use Rattle.kr_perform.specs.kr_ops.Sound.{IsOfViewFor};
ghost use Rattle.kr_perform.specs.kr_view.View.{Row};

use kr_perform::below::State;
use rv_cpu::below::pr_base::NoMemory;

/// Kills a living process by a signal, as signal(7) has it where the signal is the default's to end: its status, which wait4(2) tells its
/// parent, is the signal's number. After want of memory the state may only be dropped.
pub fn kill<T: Copy, const M: u8>(
    state: &mut State<T, M>,
    pid: u32,
    signal: u8,
) -> Result<(), NoMemory>
    requires { IsOfViewFor pid state.old }
    ensures ends { OnOk result (Makes pid (End signal) state.old state.new) }
    ensures runs { OnOk result ((number : T → ℕ) (table : List Row) (calls : ℕ) → Runs number table calls state.old → Runs number table calls state.new) }
{
    state.end(pid, u32::from(signal))
}

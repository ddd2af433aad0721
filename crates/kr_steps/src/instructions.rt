//! The instructions of a turn.
ghost use Rattle.std.specs.Prelude.{ℕ, List, IfOk, OnOk};
ghost use Rattle.kr_perform.specs.kr_model.State.{process};
ghost use Rattle.kr_perform.specs.kr_ops.Sound.{IsSoundFor};
ghost use Rattle.kr_perform.specs.kr_view.View.{Row};
ghost use Rattle.kr_perform.specs.Calling.{Runs};
ghost use Rattle.kr_steps.specs.Computing.{Computes};
ghost use Rattle.rv_cpu.specs.Step.{IsLowSignal};

use kr_perform::below::State;
use rv_cpu::below::pr_base::NoMemory;
use rv_cpu::{Event, run};

/// Does `fuel` instructions of a living process, or fewer where one of them is a call or kills it, which is the last. Tells how
/// it ended, and how many were done. After `NoMemory` the state may only be dropped.
pub fn compute<T: Copy, const M: u8>(
    state: &mut State<T, M>,
    pid: u32,
    fuel: u32,
) -> Result<(Event, u32), NoMemory>
    requires { IsSoundFor pid state.old }
    ensures computes { IfOk result (λ end. Computes pid fuel state.old state.new end.0 end.1) }
    ensures signal { IfOk result (λ end. IsLowSignal end.0) }
    ensures runs { OnOk result ((number : T → ℕ) (table : List Row) (calls : ℕ) → Runs number table calls state.old → Runs number table calls state.new) }
{
    let Some(k) = state.index_of(pid) else {
        unreachable!();
    };
    let process = &mut state.living[k];
    run(&mut process.regs, &mut process.mem, fuel)
}

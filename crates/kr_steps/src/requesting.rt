//! The request of a call.
ghost use Rattle.std.specs.Prelude.{ℕ, List, IfOk};
ghost use Rattle.kr_perform.specs.law_allowed.Calls.{HasTextPaths, IsGivable};
ghost use Rattle.kr_perform.specs.Calling.{Runs};
ghost use Rattle.kr_perform.specs.kr_model.State.{process};
ghost use Rattle.kr_perform.specs.kr_ops.Sound.{IsSoundFor};
ghost use Rattle.kr_steps.specs.Computing.{Requests};
ghost use Rattle.kr_perform.specs.kr_view.View.{Row};

use kr_perform::below::{CallFault, Request, State, decode};
use rv_cpu::below::rv_mem::Use;

/// What a living process asks for by the call at which it stands, or the error that decoding it answers. What was read of its memory
/// is noted there, whatever is answered.
pub fn request<T: Copy, const M: u8>(
    state: &mut State<T, M>,
    pid: u32,
) -> Result<Request, CallFault>
    requires { IsSoundFor pid state.old }
    ensures requested { Requests pid state.old state.new result }
    ensures given { IfOk result (λ r. IsGivable r) }
    ensures paths { IfOk result (λ r. HasTextPaths r) }
    ensures runs { (number : T → ℕ) (table : List Row) (calls : ℕ) → Runs number table calls state.old → Runs number table calls state.new }
{
    let Some(k) = state.index_of(pid) else {
        unreachable!();
    };
    let process = &mut state.living[k];
    // For the proof alone: what is in a memory are bytes.
    let _can = process.mem.can(0, 0, Use::Read);
    decode(&process.regs, &mut process.mem)
}

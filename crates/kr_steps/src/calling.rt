//! A call of a process, to its end.
ghost use Rattle.std.specs.Prelude.{◌≡◌, ◌<◌, ◌^◌, ℕ, suc, IfOk, OnOk};
ghost use Rattle.kr_perform.specs.Calling.{CanBeMade, CanCall, Runs};
ghost use Rattle.kr_perform.specs.kr_ops.Meaning.{meaning};
ghost use Rattle.kr_perform.specs.kr_seen.CallWalks.{call_reach};
ghost use Rattle.kr_perform.specs.Operating.{IsNoExec};
ghost use Rattle.kr_perform.specs.kr_seen.Numbered.{state_numbered};
ghost use Rattle.kr_steps.specs.Settling.{IsSettled};

use crate::answering::{answer, stay};
use kr_perform::below::{Outcome, Places, Reach, Request, State};
use kr_perform::carry_out;
use rv_cpu::below::pr_base::NoMemory;
use std::alloc::Global;

/// What became of the caller of a call.
#[derive(Clone, Copy)]
pub enum Called {
    /// It was told an answer, and goes on behind the call.
    Answered,
    /// It stays at the call, which waits.
    Waits,
    /// It ended.
    Ended,
}

/// Makes a call of a living process that isn't execve(2): walks its paths, carries it out, and tells the caller the answer, or lets it
/// stay where the call waits. What the walks reach is added to `reach`. After want of memory the state may only be dropped.
pub fn call<P: Places, const M: u8>(
    alloc: Global,
    places: &P,
    state: &mut State<P::Mount, M>,
    pid: u32,
    request: &Request,
    reach: &mut Reach,
) -> Result<Called, NoMemory>
    requires kind { IsNoExec request.now }
    requires request { CanBeMade request.now }
    requires caller { CanCall P.number (P.mounts places.now) pid state.old }
    ensures settled { IfOk result (λ called. IsSettled P.number (P.mounts places.now) pid request.now state.old state.new called) }
    ensures reach { OnOk result (reach.new ≡ call_reach (P.mounts places.now) pid (state_numbered P.number (meaning state.old)) request.now reach.old) }
    ensures runs { OnOk result ((calls : ℕ) → calls < 2 ^ 31 → Runs P.number (P.mounts places.now) calls state.old → Runs P.number (P.mounts places.now) (suc calls) state.new) }
{
    match carry_out(alloc, places, state, pid, request, reach) {
        Outcome::Answer(value) => {
            answer(state, pid, value);
            Ok(Called::Answered)
        }
        Outcome::Wait => {
            stay(state, pid);
            Ok(Called::Waits)
        }
        Outcome::Ended => Ok(Called::Ended),
        Outcome::NoMemory => Err(NoMemory),
    }
}

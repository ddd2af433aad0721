//! A pass of a loop.
ghost use Rattle.std.specs.Prelude.{◌≡◌, ◌≢◌, ℕ, length, IfOk, OnOk};
ghost use Rattle.rv_cpu.specs.Step.{register};
ghost use Rattle.rv_cpu.specs.Words.{sum};
ghost use Rattle.rv_loops.specs.Loops.{CanPass, after_amo};

use crate::code::{LoopOp, LoopRegs};
use rv_cpu::below::pr_base::NoMemory;
use rv_cpu::below::rv_mem::Space;
use rv_cpu::{Event, Regs, run};

// An array of registers has 32 of them, which the proof of a pass asks for.
fn counted(x: &[u64; 32])
    ensures { length x.now ≡ 32 }
{}

/// Runs the four instructions of a loop, which stand at the pc. Memory and registers are then as after the
/// AMO of the same operation, but for `value`, `failed` and the pc, which is behind the loop. After
/// `NoMemory` registers and memory may only be dropped.
pub fn turn<const M: u8>(
    op: LoopOp,
    wide: bool,
    r: LoopRegs,
    regs: &mut Regs,
    mem: &mut Space<M>,
) -> Result<Event, NoMemory>
    requires { CanPass op wide r regs.old mem.old }
    ensures event { IfOk result (λ event. event ≡ Event.Next) }
    ensures amo { (after_amo op wide r regs.old mem.old).reply.event ≡ Event.Next }
    ensures memory { OnOk result (mem.new ≡ (after_amo op wide r regs.old mem.old).memory) }
    ensures registers { OnOk result ((k : ℕ) → k ≢ r.value → k ≢ r.failed
        → register regs.new k ≡ register (after_amo op wide r regs.old mem.old).reply.regs k) }
    ensures pc { OnOk result (regs.new.pc ≡ sum regs.old.pc 16) }
{
    counted(&regs.x);
    let (event, _done) = run(regs, mem, 4)?;
    Ok(event)
}

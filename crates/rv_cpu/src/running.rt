//! Instructions one after the other.
ghost use Rattle.std.specs.Prelude.{◌≡◌, IfOk, OnOk};
ghost use Rattle.rv_mem.specs.Memory.{page_count};
ghost use Rattle.rv_cpu.specs.Run.{ran};
ghost use Rattle.rv_cpu.specs.Step.{IsLowSignal};

use crate::event::Event;
use crate::execution::step;
use rv_mem::below::pr_base::NoMemory;
use rv_mem::{Regs, Space};

/// Does `fuel` instructions, or fewer where one of them is a call or kills, which is the last. Tells
/// how it ended, and how many were done, in which that last one counts. Nothing is reserved at first. After `NoMemory` registers and
/// memory may only be dropped.
pub fn run<const M: u8>(
    regs: &mut Regs,
    mem: &mut Space<M>,
    fuel: u32,
) -> Result<(Event, u32), NoMemory>
    ensures event { IfOk result (λ end. end.0 ≡ (ran fuel regs.old mem.old).event) }
    ensures done { IfOk result (λ end. end.1 ≡ (ran fuel regs.old mem.old).done) }
    ensures regs { OnOk result (regs.new ≡ (ran fuel regs.old mem.old).regs) }
    ensures memory { OnOk result (mem.new ≡ (ran fuel regs.old mem.old).memory) }
    ensures signal { IfOk result (λ end. IsLowSignal end.0) }
    ensures count { page_count mem.new.pages ≡ page_count mem.old.pages }
{
    let mut held = None;
    for done in 0..fuel {
        match step(regs, mem, &mut held)? {
            Event::Next => {}
            event => return Ok((event, done + 1)),
        }
    }
    Ok((Event::Next, fuel))
}

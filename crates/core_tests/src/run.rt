//! Runs, and what is seen of them.
ghost use Rattle.std.specs.Prelude.{◌≡◌, ◌<◌, ◌^◌};
ghost use Rattle.kr_loose.specs.kr_core.Kernel.{HasNoTurn};

use kr_loose::below::{Bytes, Kernel, NoMemory, Places, Stops, Turned};
use std::alloc::Global;

/// Adds what a turn put out, and forgets it.
fn note<P: Places, S: Stops, const M: u8>(
    kernel: &mut Kernel<P, S, M>,
    seen: &mut Bytes,
) -> Result<(), NoMemory>
    ensures whole { kernel.new.whole ≡ kernel.old.whole }
    ensures turns { kernel.new.turns ≡ kernel.old.turns }
    ensures calls { kernel.new.calls ≡ kernel.old.calls }
    ensures paused { kernel.new.paused ≡ kernel.old.paused }
{
    seen.append(kernel.out())?;
    kernel.clear_bytes();
    Ok(())
}

/// How a run ended, with its status, behind what was seen.
pub fn ended(alloc: Global, seen: Bytes, how: &str, status: u8) -> Result<Bytes, NoMemory> {
    let mut all = seen;
    let line = format!(in alloc; "{how} {status}")?;
    all.append(line.as_bytes())?;
    Ok(all)
}

/// Makes turns of a new kernel until none can be made, or `turns` turns were, each of the first process that is ready: what it put out,
/// how it ended, and its status.
pub fn run<P: Places, S: Stops, const M: u8>(
    alloc: Global,
    kernel: &mut Kernel<P, S, M>,
    turns: u32,
) -> Result<Bytes, NoMemory>
    requires new { HasNoTurn kernel.old }
    requires few { turns < 2 ^ 31 }
{
    let mut seen = Bytes::new(alloc);
    for turn in 0..turns {
        match kernel.turn(0, 1000)? {
            Turned::Ran => note(kernel, &mut seen)?,
            Turned::Deadlock => return ended(alloc, seen, "deadlock", kernel.status()),
            Turned::Over => return ended(alloc, seen, "over", kernel.status()),
        }
    }
    ended(alloc, seen, "spent", kernel.status())
}

//! The lists of texts that a call hands over.
ghost use Rattle.std.specs.Prelude.{◌≡◌};
ghost use Rattle.kr_execve.specs.Executing.{ReadsLists};
ghost use Rattle.kr_perform.specs.kr_ops.Sound.{IsSoundFor};

use kr_exec::below::kr_calls::CallFault;
use kr_exec::{Lists, read_lists};
use kr_perform::below::{State, WalkFault};
use std::alloc::Global;

/// Reads the lists at two addresses in the memory of a living process.
pub fn read<T: Copy, const M: u8>(
    alloc: Global,
    state: &mut State<T, M>,
    pid: u32,
    args: u64,
    env: u64,
) -> Result<Lists, WalkFault>
    requires { IsSoundFor pid state.old }
    ensures { ReadsLists pid args env state.old state.new result }
{
    let Some(k) = state.index_of(pid) else {
        unreachable!();
    };
    match read_lists(alloc, &mut state.living[k].mem, args, env) {
        Ok(lists) => Ok(lists),
        Err(CallFault::Err(errno)) => Err(WalkFault::Err(errno)),
        Err(CallFault::NoMemory) => Err(WalkFault::NoMemory),
    }
}

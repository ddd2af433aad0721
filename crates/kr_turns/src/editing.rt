//! What is read and changed of a stopped process in a state.
ghost use Rattle.std.specs.Prelude.{◌≡◌, ◌<◌, ◌↔◌, ℕ, List, IsErrOf, IsOk, IsTrue, length, OnErr, OnOk, false, get_or, slice_set};
ghost use Rattle.kr_steps.specs.rv_mem.Memory.{after_read, with_pages};
ghost use Rattle.kr_steps.specs.rv_mem.Pages.{allows_all, bytes_from, written};
ghost use Rattle.kr_steps.specs.Calls.{Runs};
ghost use Rattle.kr_steps.specs.kr_model.State.{process};
ghost use Rattle.kr_hostview.specs.kr_ops.Meaning.{meaning};
ghost use Rattle.kr_hostview.specs.kr_ops.Sound.{IsSoundFor};
ghost use Rattle.kr_steps.specs.Computing.{computed};
ghost use Rattle.kr_steps.specs.kr_stops.Stopped.{image_in};
ghost use Rattle.kr_execve.specs.kr_view.View.{Row};

use kr_hostview::below::State;
use kr_steps::below::{BadAddress, StoreFault, Use};

/// A register of a living process.
pub fn register<T: Copy, const M: u8>(state: &State<T, M>, pid: u32, k: u8) -> u64
    requires caller { IsSoundFor pid state.now }
    requires k { k < 32 }
    ensures { result ≡ get_or (image_in pid (meaning state.now)).regs.x k 0 }
{
    match state.index_of(pid) {
        Some(at) => state.living[at].regs.x[k as usize],
        None => unreachable!(),
    }
}

/// Gives a register of a living process another value.
pub fn set_register<T: Copy, const M: u8>(state: &mut State<T, M>, pid: u32, k: u8, v: u64)
    requires caller { IsSoundFor pid state.old }
    requires k { k < 32 }
    ensures set { let own = image_in pid (meaning state.old) in meaning state.new ≡ computed pid (record { x = slice_set own.regs.x k v; pc = own.regs.pc }) own.memory (meaning state.old) }
    ensures runs { (number : T → ℕ) (table : List Row) (calls : ℕ) → Runs number table calls state.old → Runs number table calls state.new }
{
    let Some(at) = state.index_of(pid) else {
        unreachable!();
    };
    let process = &mut state.living[at];
    process.regs.x[k as usize] = v;
}

/// Whether each of `n` bytes of a living process from an address on may be used in a way.
pub fn can<T: Copy, const M: u8>(state: &State<T, M>, pid: u32, at: u64, n: u64, what: Use) -> bool
    requires { IsSoundFor pid state.now }
    ensures { result ≡ allows_all (image_in pid (meaning state.now)).memory.pages at n what }
{
    match state.index_of(pid) {
        Some(k) => state.living[k].mem.can(at, n, what),
        None => unreachable!(),
    }
}

/// Reads bytes of the memory of a living process, all of which may be used in a way.
pub fn peek<T: Copy, const M: u8>(
    state: &mut State<T, M>,
    pid: u32,
    at: u64,
    into: &mut [u8],
    what: Use,
) -> Result<(), BadAddress>
    requires { IsSoundFor pid state.old }
    ensures when { IsOk result ↔ IsTrue (allows_all (image_in pid (meaning state.old)).memory.pages at (length into.old) what) }
    ensures bytes { OnOk result (into.new ≡ bytes_from (image_in pid (meaning state.old)).memory.pages at (length into.old)) }
    ensures after { OnOk result (let own = image_in pid (meaning state.old) in meaning state.new ≡ computed pid own.regs (after_read own.memory at (length into.old)) (meaning state.old)) }
    ensures err { OnErr result (meaning state.new ≡ meaning state.old) }
    ensures err_bytes { OnErr result (into.new ≡ into.old) }
    ensures runs { (number : T → ℕ) (table : List Row) (calls : ℕ) → Runs number table calls state.old → Runs number table calls state.new }
{
    let Some(k) = state.index_of(pid) else {
        unreachable!();
    };
    let process = &mut state.living[k];
    process.mem.read(at, into, what)
}

/// Writes bytes into the memory of a living process, all of which may be written.
pub fn poke<T: Copy, const M: u8>(
    state: &mut State<T, M>,
    pid: u32,
    at: u64,
    b: &[u8],
) -> Result<(), StoreFault>
    requires { IsSoundFor pid state.old }
    ensures bad { IsErrOf result StoreFault.BadAddress ↔ (allows_all (image_in pid (meaning state.old)).memory.pages at (length b.now) Use.Write ≡ false) }
    ensures after { OnOk result (let own = image_in pid (meaning state.old) in meaning state.new ≡ computed pid own.regs (with_pages own.memory (written own.memory.pages at b.now)) (meaning state.old)) }
    ensures err { OnErr result (meaning state.new ≡ meaning state.old) }
    ensures runs { (number : T → ℕ) (table : List Row) (calls : ℕ) → Runs number table calls state.old → Runs number table calls state.new }
{
    let Some(k) = state.index_of(pid) else {
        unreachable!();
    };
    let process = &mut state.living[k];
    process.mem.write(at, b)
}

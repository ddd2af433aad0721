//! The memory of the caller of a call.
ghost use Rattle.std.specs.Prelude.{◌≡◌, ◌≢◌, ◌↔◌, Bool, false, [], length, IsErrOf, IfOk, OnOk, OnErr};
ghost use Rattle.kr_ops.specs.pr_base.declared.errno.Errno.TheVariants.{EFAULT};
ghost use Rattle.kr_ops.specs.rv_mem.Actions.{write_if_allowed};
ghost use Rattle.kr_ops.specs.rv_mem.Pages.{allows_all};
ghost use Rattle.kr_ops.specs.kr_model.ProcessRows.{null_or_writable, unless_null};
ghost use Rattle.kr_ops.specs.kr_model.Reply.{Replying, done, refuse};
ghost use Rattle.kr_ops.specs.kr_model.declared.outcome.Outcome.TheVariants.{NoMemory as WantOfMemory};
ghost use Rattle.kr_ops.specs.Making.{IsAsBefore};
ghost use Rattle.kr_ops.specs.Meaning.{meaning};
ghost use Rattle.kr_ops.specs.Sound.{IsServed, IsSoundFor};
ghost use Rattle.kr_seen.specs.PerformedRows.{Performs, memory_of};
ghost use Rattle.kr_seen.specs.Using.{CarriesOn, Reads, Writes};

use crate::answers::{number, refused};
use kr_ops::State;
use kr_ops::below::{BadAddress, Outcome, StoreFault, Use};
use kr_walk::below::{Bytes, Errno};
use std::alloc::AllocError;

/// Why bytes aren't read into memory of their own.
#[derive(Clone, Copy)]
pub enum LoadFault {
    /// A byte isn't mapped with the right to read.
    BadAddress,
    NoMemory,
}

impl From<AllocError> for LoadFault {
    ghost use Rattle.kr_seen.specs.declared.caller.LoadFault.TheVariants.{NoMemory as Wanting};
    ghost use Rattle.std.specs.Prelude.{◌≡◌};

    ghost from_gives = { λ _ fault. fault ≡ Wanting };

    fn from(_error: AllocError) -> LoadFault {
        LoadFault::NoMemory
    }
}

/// Whether each of `n` bytes of a process may be used so.
pub fn may_use<T: Copy, const M: u8>(
    state: &State<T, M>,
    pid: u32,
    at: u64,
    n: u64,
    what: Use,
) -> bool
    requires { IsSoundFor pid state.now }
    ensures { result ≡ allows_all (memory_of pid (meaning state.now)).pages at n what }
{
    match state.index_of(pid) {
        Some(k) => state.living[k].mem.can(at, n, what),
        None => unreachable!(),
    }
}

/// Reads bytes of a process, all or none of them.
pub fn read_into<T: Copy, const M: u8>(
    state: &mut State<T, M>,
    pid: u32,
    at: u64,
    into: &mut [u8],
) -> Result<(), BadAddress>
    requires { IsSoundFor pid state.old }
    ensures ok { OnOk result (Reads pid at (length into.old) into.new state.old state.new) }
    ensures bad { OnErr result (allows_all (memory_of pid (meaning state.old)).pages at (length into.old) Use.Read ≡ false) }
    ensures err { OnErr result (IsAsBefore state.old state.new) }
{
    let Some(k) = state.index_of(pid) else {
        unreachable!();
    };
    state.living[k].mem.read(at, into, Use::Read)
}

/// The bytes of a process, all or none of them, in memory of their own.
pub fn read<T: Copy, const M: u8>(
    state: &mut State<T, M>,
    pid: u32,
    at: u64,
    n: usize,
) -> Result<Bytes, LoadFault>
    requires { IsSoundFor pid state.old }
    ensures ok { IfOk result (λ bytes. Reads pid at n bytes state.old state.new) }
    ensures bad { IsErrOf result LoadFault.BadAddress ↔ (allows_all (memory_of pid (meaning state.old)).pages at n Use.Read ≡ false) }
    ensures err { OnErr result (IsAsBefore state.old state.new) }
{
    if !may_use(state, pid, at, n as u64, Use::Read) {
        return Err(LoadFault::BadAddress);
    }
    let mut bytes = vec![in *state.living.allocator(); 0; n]?;
    match read_into(state, pid, at, &mut bytes) {
        Ok(()) => Ok(Bytes::from(bytes)),
        Err(BadAddress) => unreachable!(),
    }
}

/// Writes bytes of a process, all or none of them.
pub fn write<T: Copy, const M: u8>(
    state: &mut State<T, M>,
    pid: u32,
    at: u64,
    bytes: &[u8],
) -> Result<(), StoreFault>
    requires { IsSoundFor pid state.old }
    ensures ok { OnOk result (Writes pid at bytes.now state.old state.new) }
    ensures bad { IsErrOf result StoreFault.BadAddress ↔ (allows_all (memory_of pid (meaning state.old)).pages at (length bytes.now) Use.Write ≡ false) }
    ensures err { OnErr result (IsAsBefore state.old state.new) }
{
    let Some(k) = state.index_of(pid) else {
        unreachable!();
    };
    state.living[k].mem.write(at, bytes)
}

/// Writes bytes of a process and answers a number: EFAULT where they can't be written.
pub fn tell<T: Copy, const M: u8>(
    state: &mut State<T, M>,
    pid: u32,
    at: u64,
    bytes: &[u8],
    answer: u32,
) -> Outcome
    requires { IsSoundFor pid state.old }
    ensures performs { Performs pid (λ _. write_if_allowed at bytes.now (refuse EFAULT) (done answer [])) state.old state.new result }
    ensures served { result ≢ WantOfMemory → IsServed state.new }
{
    match write(state, pid, at, bytes) {
        Ok(()) => number(answer),
        Err(StoreFault::BadAddress) => refused(Errno::EFAULT),
        Err(StoreFault::NoMemory) => Outcome::NoMemory,
    }
}

/// Whether bytes of a process can be written; at the address 0 none will be.
pub fn null_or_writable<T: Copy, const M: u8>(
    state: &State<T, M>,
    pid: u32,
    at: u64,
    n: u64,
) -> bool
    requires { IsSoundFor pid state.now }
    ensures { (next : Bool → Replying) → CarriesOn pid (null_or_writable at n next) (next result) state.now state.now }
{
    if at == 0 {
        return true;
    }
    may_use(state, pid, at, n, Use::Write)
}

/// Writes bytes of a process, but at the address 0 none.
pub fn write_unless_null<T: Copy, const M: u8>(
    state: &mut State<T, M>,
    pid: u32,
    at: u64,
    bytes: &[u8],
) -> Result<(), StoreFault>
    requires { IsSoundFor pid state.old }
    ensures { (next : Replying) → OnOk result (CarriesOn pid (unless_null at bytes.now next) next state.old state.new) }
{
    if at == 0 {
        return Ok(());
    }
    write(state, pid, at, bytes)
}

//! clone(2).
ghost use Rattle.std.specs.Prelude.{◌≡◌, ◌≢◌, ◌+◌, ◌<◌, ◌^◌, ℕ, true, IfSome};
ghost use Rattle.kr_seen.specs.rv_mem.Pages.{allows_all};
ghost use Rattle.kr_seen.specs.rv_mem.declared.rights.Use.TheVariants.{Write};
ghost use Rattle.kr_seen.specs.kr_model.Known.{Known};
ghost use Rattle.kr_seen.specs.kr_model.ProcessRows.{born, clone_row, is_fork, told_born};
ghost use Rattle.kr_seen.specs.kr_model.declared.outcome.Outcome.TheVariants.{NoMemory as WantOfMemory};
ghost use Rattle.kr_seen.specs.kr_ops.Meaning.{meaning};
ghost use Rattle.kr_seen.specs.kr_ops.Sound.{IsServed, IsSoundFor};
ghost use Rattle.kr_seen.specs.PerformedRows.{Performs, memory_of};
ghost use Rattle.kr_seen.specs.Using.{CarriesOn};

use crate::answer::{number, refused};
use kr_seen::below::{Errno, NoMemory, Outcome, State, Use};
use kr_seen::caller;

/// The most processes, ended ones included.
const PROCESSES: usize = 256;

/// The flags of clone(2) that make a process: the signal of a child's end, with or without the child's number being
/// told to the child or forgotten at its end.
const SIGCHLD: u64 = 17;

const CHILD_CLEARTID: u64 = 0x20_0000;

const CHILD_SETTID: u64 = 0x100_0000;

/// clone(2): EINVAL of other flags than those that make a process; EAGAIN of processes, ENOMEM of pages; the child's number, 0 in
/// the child. A stack pointer other than 0 is the child's.
pub fn clone<T: Copy, const M: u8>(
    state: &mut State<T, M>,
    pid: u32,
    flags: u64,
    sp: u64,
    ctid: u64,
) -> Outcome
    requires caller { IsSoundFor pid state.old }
    requires numbers { state.old.next_pid + 1 < 2 ^ 32 }
    ensures performs { Performs pid (λ k. clone_row k flags sp ctid) state.old state.new result }
    ensures served { result ≢ WantOfMemory → IsServed state.new }
{
    let Some(k) = state.index_of(pid) else {
        unreachable!();
    };
    if !is_fork(flags) {
        return refused(Errno::EINVAL);
    }
    if PROCESSES <= state.living.len() + state.ended.len() {
        return refused(Errno::EAGAIN);
    }
    if state.free_pages() < state.living[k].mem.pages() {
        return refused(Errno::ENOMEM);
    }
    let told_at = told_at(state, pid, flags, ctid);
    match state.fork(pid, sp, told_at) {
        Ok(child) => number(child),
        Err(NoMemory) => Outcome::NoMemory,
    }
}

/// Whether flags make a process.
fn is_fork(flags: u64) -> bool
    ensures { result ≡ is_fork flags }
{
    flags == SIGCHLD
        || flags == SIGCHLD + CHILD_CLEARTID
        || flags == SIGCHLD + CHILD_SETTID
        || flags == SIGCHLD + CHILD_CLEARTID + CHILD_SETTID
}

/// Where the child is told its number: where that is asked for and can be written.
fn told_at<T: Copy, const M: u8>(
    state: &State<T, M>,
    pid: u32,
    flags: u64,
    ctid: u64,
) -> Option<u64>
    requires { IsSoundFor pid state.now }
    ensures carries { (k : Known) (sp : ℕ) → CarriesOn pid (told_born k flags sp ctid) (born k sp result) state.now state.now }
    ensures allowed { IfSome result (λ at. allows_all (memory_of pid (meaning state.now)).pages at 4 Write ≡ true) }
{
    if flags & CHILD_SETTID == CHILD_SETTID && caller::may_use(state, pid, ctid, 4, Use::Write) {
        Some(ctid)
    } else {
        None
    }
}

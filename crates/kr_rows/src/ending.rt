//! exit(2) and wait4(2).
ghost use Rattle.std.specs.Prelude.{◌≡◌, ◌≢◌, ◌*◌, pos, unsigned_abs};
ghost use Rattle.std.specs.Int.{int_rem_euclid};
ghost use Rattle.kr_seen.specs.kr_model.ProcessRows.{exit_row, hangs_not, reap, wait4_row};
ghost use Rattle.kr_seen.specs.kr_model.declared.outcome.Outcome.TheVariants.{NoMemory as WantOfMemory};
ghost use Rattle.kr_seen.specs.kr_ops.Meaning.{ended_meaning};
ghost use Rattle.kr_seen.specs.kr_ops.Sound.{IsOfView, IsServed, IsSoundFor};
ghost use Rattle.kr_seen.specs.PerformedRows.{Performs};

use crate::answer::{both, number, refused};
use kr_seen::below::{EndedProcess, Errno, Meant, NoMemory, Outcome, State};
use kr_seen::caller;

/// WNOHANG of wait4(2).
const NO_HANG: u32 = 1;

/// How many bytes the structure `rusage` has.
const USAGE: usize = 144;

/// exit(2) and exit_group(2): the low eight bits of the code, where wait4(2) tells an exit.
pub fn exit<T: Copy, const M: u8>(state: &mut State<T, M>, pid: u32, code: i32) -> Outcome
    requires { IsOfView state.old }
    ensures performs { Performs pid (λ k. exit_row code) state.old state.new result }
    ensures served { result ≢ WantOfMemory → IsServed state.new }
{
    match state.end(pid, exit_status(code)) {
        Ok(()) => Outcome::Ended,
        Err(NoMemory) => Outcome::NoMemory,
    }
}

/// The word by which wait4(2) tells the code of an exit.
fn exit_status(code: i32) -> u32
    ensures { result ≡ unsigned_abs (int_rem_euclid code (pos 256)) * 256 }
{
    code.rem_euclid(256).unsigned_abs() * 256
}

/// wait4(2): ECHILD without such a child; the ended one of the lowest number, EFAULT; with none ended 0 or a wait.
pub fn wait4<T: Copy, const M: u8>(
    state: &mut State<T, M>,
    pid: u32,
    child: i32,
    status: u64,
    options: i32,
    usage: u64,
) -> Outcome
    requires { IsSoundFor pid state.old }
    ensures performs { Performs pid (λ k. wait4_row k pid child status options usage) state.old state.new result }
    ensures served { result ≢ WantOfMemory → IsServed state.new }
{
    let meant = Meant::by(child);
    if let Some(ended) = state.ended_child(pid, meant) {
        return reap(state, pid, ended, status, usage);
    }
    if !state.has_child(pid, meant) {
        refused(Errno::ECHILD)
    } else if hangs_not(options) {
        number(0)
    } else {
        Outcome::Wait
    }
}

/// Whether wait4(2) is to answer at once.
fn hangs_not(options: i32) -> bool
    ensures { result ≡ hangs_not options }
{
    options.unsigned_abs() & NO_HANG == NO_HANG
}

/// Takes an ended child away and tells of it, the status first and then the usage, all zeros. After EFAULT the child stays.
fn reap<T: Copy, const M: u8>(
    state: &mut State<T, M>,
    pid: u32,
    ended: EndedProcess,
    status: u64,
    usage: u64,
) -> Outcome
    requires { IsSoundFor pid state.old }
    ensures performs { Performs pid (λ _. reap status usage (ended_meaning ended)) state.old state.new result }
    ensures served { result ≢ WantOfMemory → IsServed state.new }
{
    let first = caller::null_or_writable(state, pid, status, 4);
    let second = caller::null_or_writable(state, pid, usage, USAGE as u64);
    if !both(first, second) {
        return refused(Errno::EFAULT);
    }
    // Each byte may be written, so that only memory can be wanting.
    match caller::write_unless_null(state, pid, status, &ended.status.to_le_bytes()) {
        Ok(()) => {}
        Err(_) => return Outcome::NoMemory,
    }
    match caller::write_unless_null(state, pid, usage, &[0; USAGE]) {
        Ok(()) => {
            state.reap(ended.pid);
            number(ended.pid)
        }
        Err(_) => Outcome::NoMemory,
    }
}

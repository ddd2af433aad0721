//! Calls on processes.
ghost use Rattle.std.specs.Prelude.{◌≡◌};
ghost use Rattle.kr_seen.specs.kr_model.ProcessRows.{getppid_row, pid_row, signals_row, umask_row};
ghost use Rattle.kr_seen.specs.kr_ops.Sound.{IsServed, IsSound, IsSoundFor};
ghost use Rattle.kr_seen.specs.PerformedRows.{Performs};

use crate::answer::number;
use kr_seen::below::{Outcome, State};

/// How many masks of nine bits there are.
const MASKS: u32 = 512;

/// getpid(2), gettid(2) and set_tid_address(2), of which nothing is kept.
pub fn getpid<T: Copy, const M: u8>(state: &State<T, M>, pid: u32) -> Outcome
    requires { IsSound state.now }
    ensures { Performs pid (λ k. pid_row pid) state.now state.now result }
{
    // For the proof alone: the clauses speak of it.
    let _state = state;
    number(pid)
}

/// rt_sigaction(2) and rt_sigprocmask(2): nothing is done.
pub fn signals<T: Copy, const M: u8>(state: &State<T, M>, pid: u32) -> Outcome
    requires { IsSound state.now }
    ensures { Performs pid (λ k. signals_row) state.now state.now result }
{
    // For the proof alone: the clauses speak of it.
    let _state = state;
    let _pid = pid;
    number(0)
}

/// getppid(2).
pub fn getppid<T: Copy, const M: u8>(state: &State<T, M>, pid: u32) -> Outcome
    requires { IsSoundFor pid state.now }
    ensures { Performs pid (λ k. getppid_row k) state.now state.now result }
{
    match state.index_of(pid) {
        Some(k) => number(state.living[k].parent),
        None => unreachable!(),
    }
}

/// umask(2): the low nine bits are kept; the old mask.
pub fn umask<T: Copy, const M: u8>(state: &mut State<T, M>, pid: u32, mask: u32) -> Outcome
    requires { IsSoundFor pid state.old }
    ensures performs { Performs pid (λ k. umask_row k mask) state.old state.new result }
    ensures served { IsServed state.new }
{
    let Some(k) = state.index_of(pid) else {
        unreachable!();
    };
    let old = state.living[k].umask;
    state.set_umask(pid, (mask % MASKS) as u16);
    number(u32::from(old))
}

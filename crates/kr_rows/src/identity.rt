//! Calls on the numbers of the user and its groups, as an unprivileged process has them: real, effective and saved are one.
ghost use Rattle.std.specs.Prelude.{◌≡◌, ◌≢◌};
ghost use Rattle.kr_seen.specs.kr_model.IdentityRows.{get_row, get_three_row, getgroups_row, is_kept, set_row, set_three_row, set_two_row, setgroups_row};
ghost use Rattle.kr_seen.specs.kr_model.declared.outcome.Outcome.TheVariants.{NoMemory as WantOfMemory};
ghost use Rattle.kr_seen.specs.kr_ops.Sound.{IsServed, IsSound, IsSoundFor};
ghost use Rattle.kr_seen.specs.PerformedRows.{Performs, unchanged};

use crate::answer::{both, natural, number, refused};
use kr_seen::below::{Errno, Outcome, State, Use};
use kr_seen::caller;

/// All ones, which stand for no number.
const NO_NUMBER: u32 = 0xffff_ffff;

/// getuid(2) and geteuid(2): the user.
pub fn getuid<T: Copy, const M: u8>(state: &State<T, M>, pid: u32) -> Outcome
    requires { IsSound state.now }
    ensures { Performs pid (λ k. get_row k.user.uid) state.now state.now result }
{
    number(state.user.uid)
}

/// getgid(2) and getegid(2): its group.
pub fn getgid<T: Copy, const M: u8>(state: &State<T, M>, pid: u32) -> Outcome
    requires { IsSound state.now }
    ensures { Performs pid (λ k. get_row k.user.gid) state.now state.now result }
{
    number(state.user.gid)
}

/// setuid(2): EINVAL of no number, EPERM of another than the own one.
pub fn setuid<T: Copy, const M: u8>(state: &State<T, M>, pid: u32, uid: u32) -> Outcome
    requires { IsSound state.now }
    ensures { Performs pid (λ k. set_row k.user.uid uid) state.now state.now result }
{
    set(state.user.uid, uid)
}

/// setgid(2), the same of the group.
pub fn setgid<T: Copy, const M: u8>(state: &State<T, M>, pid: u32, gid: u32) -> Outcome
    requires { IsSound state.now }
    ensures { Performs pid (λ k. set_row k.user.gid gid) state.now state.now result }
{
    set(state.user.gid, gid)
}

/// setreuid(2): EPERM unless each is the own one or none.
pub fn setreuid<T: Copy, const M: u8>(
    state: &State<T, M>,
    pid: u32,
    real: u32,
    effective: u32,
) -> Outcome
    requires { IsSound state.now }
    ensures { Performs pid (λ k. set_two_row k.user.uid real effective) state.now state.now result }
{
    set_two(state.user.uid, real, effective)
}

/// setregid(2), the same of the group.
pub fn setregid<T: Copy, const M: u8>(
    state: &State<T, M>,
    pid: u32,
    real: u32,
    effective: u32,
) -> Outcome
    requires { IsSound state.now }
    ensures { Performs pid (λ k. set_two_row k.user.gid real effective) state.now state.now result }
{
    set_two(state.user.gid, real, effective)
}

/// setresuid(2): EPERM unless each of three is the own one or none.
pub fn setresuid<T: Copy, const M: u8>(
    state: &State<T, M>,
    pid: u32,
    real: u32,
    effective: u32,
    saved: u32,
) -> Outcome
    requires { IsSound state.now }
    ensures { Performs pid (λ k. set_three_row k.user.uid real effective saved) state.now state.now result }
{
    set_three(state.user.uid, real, effective, saved)
}

/// setresgid(2), the same of the group.
pub fn setresgid<T: Copy, const M: u8>(
    state: &State<T, M>,
    pid: u32,
    real: u32,
    effective: u32,
    saved: u32,
) -> Outcome
    requires { IsSound state.now }
    ensures { Performs pid (λ k. set_three_row k.user.gid real effective saved) state.now state.now result }
{
    set_three(state.user.gid, real, effective, saved)
}

/// setgroups(2): EPERM.
pub fn setgroups<T: Copy, const M: u8>(state: &State<T, M>, pid: u32) -> Outcome
    requires { IsSound state.now }
    ensures { Performs pid (λ k. setgroups_row) state.now state.now result }
{
    refused(Errno::EPERM)
}

/// A number is set to one, which has to be the own one.
fn set(own: u32, id: u32) -> Outcome
    ensures { set_row own id ≡ unchanged result }
{
    if id == NO_NUMBER {
        refused(Errno::EINVAL)
    } else if id == own {
        number(0)
    } else {
        refused(Errno::EPERM)
    }
}

/// Whether it is the own number or none.
fn is_kept(own: u32, id: u32) -> bool
    ensures { result ≡ is_kept own id }
{
    id == NO_NUMBER || id == own
}

/// Two numbers are set.
fn set_two(own: u32, real: u32, effective: u32) -> Outcome
    ensures { set_two_row own real effective ≡ unchanged result }
{
    if is_kept(own, real) && is_kept(own, effective) {
        number(0)
    } else {
        refused(Errno::EPERM)
    }
}

/// Three numbers are set.
fn set_three(own: u32, real: u32, effective: u32, saved: u32) -> Outcome
    ensures { set_three_row own real effective saved ≡ unchanged result }
{
    if is_kept(own, real) && is_kept(own, effective) && is_kept(own, saved) {
        number(0)
    } else {
        refused(Errno::EPERM)
    }
}

/// getresuid(2): EFAULT where one of the three addresses can't be written, and then nothing is.
pub fn getresuid<T: Copy, const M: u8>(
    state: &mut State<T, M>,
    pid: u32,
    real: u64,
    effective: u64,
    saved: u64,
) -> Outcome
    requires { IsSoundFor pid state.old }
    ensures performs { Performs pid (λ k. get_three_row k.user.uid real effective saved) state.old state.new result }
    ensures served { result ≢ WantOfMemory → IsServed state.new }
{
    let own = state.user.uid;
    get_three(state, pid, own, real, effective, saved)
}

/// getresgid(2), the same of the group.
pub fn getresgid<T: Copy, const M: u8>(
    state: &mut State<T, M>,
    pid: u32,
    real: u64,
    effective: u64,
    saved: u64,
) -> Outcome
    requires { IsSoundFor pid state.old }
    ensures performs { Performs pid (λ k. get_three_row k.user.gid real effective saved) state.old state.new result }
    ensures served { result ≢ WantOfMemory → IsServed state.new }
{
    let own = state.user.gid;
    get_three(state, pid, own, real, effective, saved)
}

/// A number is told at three addresses.
fn get_three<T: Copy, const M: u8>(
    state: &mut State<T, M>,
    pid: u32,
    own: u32,
    real: u64,
    effective: u64,
    saved: u64,
) -> Outcome
    requires { IsSoundFor pid state.old }
    ensures performs { Performs pid (λ _. get_three_row own real effective saved) state.old state.new result }
    ensures served { result ≢ WantOfMemory → IsServed state.new }
{
    let first = caller::may_use(state, pid, real, 4, Use::Write);
    let second = caller::may_use(state, pid, effective, 4, Use::Write);
    let third = caller::may_use(state, pid, saved, 4, Use::Write);
    if !both(both(first, second), third) {
        return refused(Errno::EFAULT);
    }
    let bytes = own.to_le_bytes();
    // Each byte may be written, so that only memory can be wanting.
    match caller::write(state, pid, real, &bytes) {
        Ok(()) => {}
        Err(_) => return Outcome::NoMemory,
    }
    match caller::write(state, pid, effective, &bytes) {
        Ok(()) => {}
        Err(_) => return Outcome::NoMemory,
    }
    match caller::write(state, pid, saved, &bytes) {
        Ok(()) => number(0),
        Err(_) => Outcome::NoMemory,
    }
}

/// getgroups(2): one group, the user's. The size 0 asks for the count; EINVAL of a negative one, EFAULT.
pub fn getgroups<T: Copy, const M: u8>(
    state: &mut State<T, M>,
    pid: u32,
    size: i32,
    list: u64,
) -> Outcome
    requires { IsSoundFor pid state.old }
    ensures performs { Performs pid (λ k. getgroups_row k size list) state.old state.new result }
    ensures served { result ≢ WantOfMemory → IsServed state.new }
{
    let group = state.user.gid.to_le_bytes();
    match natural(size) {
        None => refused(Errno::EINVAL),
        Some(0) => number(1),
        Some(_) => caller::tell(state, pid, list, &group, 1),
    }
}

//! Calls on the caller, its pages and its user.
ghost use Rattle.std.specs.Prelude.{◌≢◌};
ghost use Rattle.law_allowed.specs.kr_model.declared.outcome.Outcome.TheVariants.{NoMemory as WantOfMemory};
ghost use Rattle.kr_rows.specs.kr_ops.Sound.{IsOfViewFor, IsServed};
ghost use Rattle.kr_perform.specs.Operating.{HasNumbers, IsOfProcess, OperatesAlone};

use kr_rows::below::{State, lawful_states_are_sound};
use kr_rows::{ending, forking, identity, memory, processes, system};
use law_allowed::below::{Outcome, Request};

/// Carries out a call that names neither a path nor a descriptor.
pub fn perform<T: Copy, const M: u8>(
    state: &mut State<T, M>,
    pid: u32,
    request: &Request,
) -> Outcome
    requires kind { IsOfProcess request.now }
    requires caller { IsOfViewFor pid state.old }
    requires numbers { HasNumbers state.old }
    ensures performs { OperatesAlone pid request.now state.old state.new result }
    ensures served { result ≢ WantOfMemory → IsServed state.new }
{
    lawful_states_are_sound::<T, M>();
    match *request {
        Request::Brk { a } => memory::brk(state, pid, a),
        Request::Munmap { a, len } => memory::munmap(state, pid, a, len),
        Request::Mmap {
            a,
            len,
            prot,
            flags,
        } => memory::mmap(state, pid, a, len, prot, flags),
        Request::Mprotect { a, len, prot } => memory::mprotect(state, pid, a, len, prot),
        Request::Exit { code } | Request::ExitGroup { code } => ending::exit(state, pid, code),
        Request::Clone { flags, sp, ctid } => forking::clone(state, pid, flags, sp, ctid),
        Request::Wait4 {
            pid: child,
            status,
            options,
            usage,
        } => ending::wait4(state, pid, child, status, options, usage),
        Request::SetTidAddress | Request::Getpid | Request::Gettid => processes::getpid(state, pid),
        Request::Getppid => processes::getppid(state, pid),
        Request::RtSigaction | Request::RtSigprocmask => processes::signals(state, pid),
        Request::Umask { m } => processes::umask(state, pid, m),
        Request::Uname { buf } => system::uname(state, pid, buf),
        Request::Getuid | Request::Geteuid => identity::getuid(state, pid),
        Request::Getgid | Request::Getegid => identity::getgid(state, pid),
        Request::Setuid { uid } => identity::setuid(state, pid, uid),
        Request::Setgid { gid } => identity::setgid(state, pid, gid),
        Request::Setreuid { ruid, euid } => identity::setreuid(state, pid, ruid, euid),
        Request::Setregid { rgid, egid } => identity::setregid(state, pid, rgid, egid),
        Request::Setresuid { ruid, euid, suid } => {
            identity::setresuid(state, pid, ruid, euid, suid)
        }
        Request::Setresgid { rgid, egid, sgid } => {
            identity::setresgid(state, pid, rgid, egid, sgid)
        }
        Request::Getresuid { ruid, euid, suid } => {
            identity::getresuid(state, pid, ruid, euid, suid)
        }
        Request::Getresgid { rgid, egid, sgid } => {
            identity::getresgid(state, pid, rgid, egid, sgid)
        }
        Request::Getgroups { size, list } => identity::getgroups(state, pid, size, list),
        Request::Setgroups { size: _, list: _ } => identity::setgroups(state, pid),
        _ => unreachable!(),
    }
}

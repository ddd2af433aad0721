//! Any call.
ghost use Rattle.std.specs.Prelude.{◌≢◌};
ghost use Rattle.law_allowed.specs.kr_model.declared.outcome.Outcome.TheVariants.{NoMemory as WantOfMemory};
ghost use Rattle.law_allowed.specs.Calls.{IsGivable};
ghost use Rattle.kr_rows.specs.kr_ops.Sound.{IsLawfulFor, IsServed};
ghost use Rattle.kr_perform.specs.Resolving.{AreResolved};
ghost use Rattle.kr_perform.specs.Operating.{HasNumbers, IsNoExec, OperatesAt};

use crate::{asking, descriptors, naming};
use kr_attributes::names::getcwd;
use kr_rows::below::{State, Targets, lawful_states_are_sound};
use law_allowed::below::{Outcome, Places, Request};
use std::alloc::Global;

/// Carries out a call that isn't execve(2), of the targets of its paths: its clauses say what it answers and what it leaves.
///
/// That what it leaves of a lawful state is lawful again, want of memory aside, and keeps what lasts, is the law
/// `laws::performed_states_last`. That law asks for more than a lawful state: that of it all lasts which calls keep, after fewer than
/// 2^31 calls, that the caller's memory holds bytes, and that what the call is told of its targets is so. `carry_out`,
/// by which each call of a turn comes here, meets these premises, and promises such a state (`runs`).
pub fn perform<P: Places, const M: u8>(
    alloc: Global,
    places: &P,
    state: &mut State<P::Mount, M>,
    pid: u32,
    request: &Request,
    targets: &Targets<P::Mount>,
) -> Outcome
    requires kind { IsNoExec request.now }
    requires given { IsGivable request.now }
    requires caller { IsLawfulFor P.number (P.mounts places.now) pid state.old }
    requires resolved { AreResolved state.old.tree (P.mounts places.now) request.now targets.now }
    requires numbers { HasNumbers state.old }
    ensures performs { OperatesAt P.number (P.mounts places.now) pid request.now targets.now.first targets.now.second state.old state.new result }
    ensures served { result ≢ WantOfMemory → IsServed state.new }
{
    lawful_states_are_sound::<P::Mount, M>();
    match request {
        Request::Openat { flags, mode, .. } => {
            naming::openat(alloc, state, places, pid, targets, *flags, *mode)
        }
        Request::Mkdirat { mode, .. } => naming::mkdirat(state, pid, targets, *mode),
        Request::Unlinkat { flags, .. } => naming::unlinkat(state, places, pid, targets, *flags),
        Request::Symlinkat { text, .. } => {
            naming::symlinkat(alloc, state, pid, targets, text.as_slice())
        }
        Request::Linkat { .. } => naming::linkat(state, places, pid, targets),
        Request::Renameat2 { .. } => naming::renameat2(state, places, pid, targets),
        Request::Faccessat { mode, .. } => asking::faccessat(state, pid, targets, *mode),
        Request::Fchmodat { mode, .. } => asking::fchmodat(state, pid, targets, *mode),
        Request::Fchownat {
            dirfd,
            path,
            uid,
            gid,
            ..
        } => asking::fchownat(state, pid, targets, *dirfd, path.as_slice(), *uid, *gid),
        Request::Newfstatat {
            dirfd,
            path,
            buf,
            ..
        } => asking::newfstatat(state, pid, targets, *dirfd, path.as_slice(), *buf),
        Request::Readlinkat { buf, size, .. } => {
            asking::readlinkat(places, state, pid, targets, *buf, *size)
        }
        Request::Chdir { .. } => asking::chdir(state, pid, targets),
        Request::Chroot { .. } => asking::chroot(state, pid, targets),
        Request::Getcwd { buf, size } => getcwd(places, state, pid, *buf, *size),
        Request::Execve { .. } => unreachable!(),
        _ => descriptors::perform(state, pid, request),
    }
}

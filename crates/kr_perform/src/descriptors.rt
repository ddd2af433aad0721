//! Calls without a path: those on what is open under a descriptor here, and the others where they stand.
ghost use Rattle.std.specs.Prelude.{◌≢◌};
ghost use Rattle.law_allowed.specs.kr_model.declared.outcome.Outcome.TheVariants.{NoMemory as WantOfMemory};
ghost use Rattle.law_allowed.specs.Calls.{IsGivable};
ghost use Rattle.kr_rows.specs.kr_ops.Sound.{IsOfViewFor, IsServed};
ghost use Rattle.kr_perform.specs.Operating.{HasNumbers, IsAlone, OperatesAlone};

use crate::processes;
use kr_attributes::directories::fchdir;
use kr_attributes::modes::fchmod;
use kr_attributes::owners::fchown;
use kr_attributes::stats::fstat;
use kr_rows::below::{State, lawful_states_are_sound};
use kr_rows::descriptors::{close, dup, dup3, ioctl, pipe2};
use kr_rows::fcntl::fcntl;
use kr_rows::seeking::lseek;
use kr_transfer::entries::getdents64;
use kr_transfer::reading::{read, readv};
use kr_transfer::sizes::ftruncate;
use kr_transfer::writing::{write, writev};
use law_allowed::below::{Outcome, Request};

/// Carries out a call without a path.
pub fn perform<T: Copy, const M: u8>(
    state: &mut State<T, M>,
    pid: u32,
    request: &Request,
) -> Outcome
    requires kind { IsAlone request.now }
    requires given { IsGivable request.now }
    requires caller { IsOfViewFor pid state.old }
    requires numbers { HasNumbers state.old }
    ensures performs { OperatesAlone pid request.now state.old state.new result }
    ensures served { result ≢ WantOfMemory → IsServed state.new }
{
    lawful_states_are_sound::<T, M>();
    match *request {
        Request::Dup { fd } => dup(state, pid, fd),
        Request::Dup3 { old, new, flags } => dup3(state, pid, old, new, flags),
        Request::Fcntl { fd, cmd, arg } => fcntl(state, pid, fd, cmd, arg),
        Request::Ioctl { fd } => ioctl(state, pid, fd),
        Request::Close { fd } => close(state, pid, fd),
        Request::Pipe2 { buf, flags } => pipe2(state, pid, buf, flags),
        Request::Lseek { fd, off, whence } => lseek(state, pid, fd, off, whence),
        Request::Read { fd, buf, n } => read(state, pid, fd, buf, n),
        Request::Readv { fd, list, count } => readv(state, pid, fd, list, count),
        Request::Write { fd, buf, n } => write(state, pid, fd, buf, n).outcome,
        Request::Writev { fd, list, count } => writev(state, pid, fd, list, count).outcome,
        Request::Ftruncate { fd, len } => ftruncate(state, pid, fd, len),
        Request::Fchdir { fd } => fchdir(state, pid, fd),
        Request::Fchmod { fd, mode } => fchmod(state, pid, fd, mode),
        Request::Fchown { fd, uid, gid } => fchown(state, pid, fd, uid, gid),
        Request::Fstat { fd, buf } => fstat(state, pid, fd, buf),
        Request::Getdents64 { fd, buf, n } => getdents64(state, pid, fd, buf, n),
        _ => processes::perform(state, pid, request),
    }
}

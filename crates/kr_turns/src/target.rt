//! The inode to which the first path of a call led, or that of what stands in a path's place.
ghost use Rattle.std.specs.Prelude.{◌≡◌, ℕ, Ok};
ghost use Rattle.std.specs.Option.{option_and_then};
ghost use Rattle.kr_calm.specs.kr_seen.CallWalks.{AreTargets};
ghost use Rattle.kr_steps.specs.kr_model.Asking.{descriptor_number, is_working_directory};
ghost use Rattle.kr_steps.specs.kr_model.Known.{known};
ghost use Rattle.kr_steps.specs.kr_model.State.{image_layout};
ghost use Rattle.kr_hostview.specs.kr_ops.Meaning.{meaning};
ghost use Rattle.kr_hostview.specs.kr_ops.Sound.{IsSound, IsSoundFor};
ghost use Rattle.kr_turns.specs.Target.{inode_at, inode_here, inode_instead, inode_under, instead_of, target_of};

use kr_execve::below::{Place, Request};
use kr_hostview::below::{AT_FDCWD, Host, State, Targets, is_processes_host};

/// What stands in the place of a path that a call doesn't have, or whose path is empty.
#[derive(Clone, Copy)]
pub(crate) enum Instead {
    Nothing,
    Descriptor(i32),
    /// A descriptor, or the working directory.
    DescriptorOrHere(i32),
}

/// The inode to which the first path of a call led, or its descriptor, or the working directory in a path's place. `None` where there
/// was none, of a pipe and of the console, of the process directory and of what is in it.
pub(crate) fn target_of<T: Copy, const M: u8>(
    state: &State<T, M>,
    pid: u32,
    request: &Request,
    targets: &Targets<T>,
) -> Option<u64>
    requires { IsSoundFor pid state.now }
    ensures { (number : T → ℕ) (answer : _) → AreTargets number answer (Ok targets.now) → result ≡ target_of request.now (known image_layout pid (meaning state.now)) answer }
{
    match &targets.first {
        Some(target) => inode_of_place(state, target.found),
        None => inode_instead(state, pid, instead_of(request)),
    }
}

/// What stands in a path's place.
fn instead_of(request: &Request) -> Instead
    ensures { result ≡ instead_of request.now }
{
    match request {
        Request::Fchmod { fd, .. }
        | Request::Fchown { fd, .. }
        | Request::Fstat { fd, .. }
        | Request::Fchdir { fd } => Instead::Descriptor(*fd),
        Request::Fchownat { dirfd, .. } | Request::Newfstatat { dirfd, .. } => {
            Instead::DescriptorOrHere(*dirfd)
        }
        _ => Instead::Nothing,
    }
}

/// The inode of what stands in a path's place.
fn inode_instead<T: Copy, const M: u8>(
    state: &State<T, M>,
    pid: u32,
    instead: Instead,
) -> Option<u64>
    requires { IsSoundFor pid state.now }
    ensures { result ≡ inode_instead (known image_layout pid (meaning state.now)) instead }
{
    match instead {
        Instead::Nothing => None,
        Instead::Descriptor(fd) => inode_under(state, pid, fd),
        Instead::DescriptorOrHere(dirfd) => inode_here(state, pid, dirfd),
    }
}

/// The inode of what is open under a descriptor.
fn inode_under<T: Copy, const M: u8>(state: &State<T, M>, pid: u32, fd: i32) -> Option<u64>
    requires { IsSound state.now }
    ensures { result ≡ inode_under (known image_layout pid (meaning state.now)) fd }
{
    let Some(number) = natural(fd) else {
        return None;
    };
    match state.opened(pid, number) {
        Some(opened) => inode_of_place(state, opened.place),
        None => None,
    }
}

/// The number of a descriptor, `None` exactly where it is negative.
fn natural(fd: i32) -> Option<u32>
    ensures { result ≡ descriptor_number fd }
{
    u32::try_from(fd).ok()
}

/// The inode of what is open under a descriptor, or of the working directory where that stands in its place.
fn inode_here<T: Copy, const M: u8>(state: &State<T, M>, pid: u32, dirfd: i32) -> Option<u64>
    requires { IsSoundFor pid state.now }
    ensures { result ≡ inode_here (known image_layout pid (meaning state.now)) dirfd }
{
    if is_working_directory(dirfd) {
        inode_at(state, working_directory(state, pid))
    } else {
        inode_under(state, pid, dirfd)
    }
}

fn is_working_directory(fd: i32) -> bool
    ensures { result ≡ is_working_directory fd }
{
    fd == AT_FDCWD
}

/// The object that is a process's working directory.
fn working_directory<T: Copy, const M: u8>(state: &State<T, M>, pid: u32) -> Host
    requires { IsSoundFor pid state.now }
    ensures { result ≡ (known image_layout pid (meaning state.now)).caller.cwd }
{
    match state.index_of(pid) {
        Some(k) => state.living[k].cwd.host,
        None => unreachable!(),
    }
}

/// The inode of what stands at a place.
fn inode_of_place<T: Copy, const M: u8>(state: &State<T, M>, place: Option<Place<T>>) -> Option<u64>
    ensures { (pid : ℕ) → result ≡ option_and_then (λ p. inode_at (known image_layout pid (meaning state.now)) p.host) place }
{
    match place {
        Some(place) => inode_at(state, place.host),
        None => None,
    }
}

/// The inode of an object of the tree; none of the process directory, nor of what is in it.
fn inode_at<T: Copy, const M: u8>(state: &State<T, M>, host: Host) -> Option<u64>
    ensures { (pid : ℕ) → result ≡ inode_at (known image_layout pid (meaning state.now)) host }
{
    match host {
        Host::Node(ino) => {
            if is_processes_host(state, host) {
                None
            } else {
                Some(u64::from(ino))
            }
        }
        Host::Proc(_, _) => None,
    }
}

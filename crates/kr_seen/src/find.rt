//! What names in the process directory stand for.
ghost use Rattle.std.specs.Prelude.{◌≡◌, ◌<◌, ◌^◌, Some, None, bytes_eq, codes};
ghost use Rattle.kr_ops.specs.kr_tree.declared.place.ProcAt.TheVariants as at;
ghost use Rattle.kr_ops.specs.kr_view.Living.{finds_among, in_directory};
ghost use Rattle.kr_ops.specs.kr_model.ProcessDirectory.{living_of};
ghost use Rattle.kr_ops.specs.Meaning.{meaning};
ghost use Rattle.kr_ops.specs.Sound.{IsSound};

use crate::target::lives;
use kr_ops::State;
use kr_ops::below::{ProcAt, number_of};

/// What a name stands for in the process directory of a state or in one of its directories; `None` exactly where there is
/// no such name.
pub fn find<T: Copy, const M: u8>(
    state: &State<T, M>,
    at: Option<ProcAt>,
    name: &[u8],
) -> Option<ProcAt>
    requires { IsSound state.now }
    ensures { result ≡ finds_among (living_of (meaning state.now)) at name.now }
{
    match at {
        None => find_process(state, name),
        Some(ProcAt::Dir(pid)) => find_link(state, pid, name),
        Some(ProcAt::FdDir(pid)) => find_descriptor(state, pid, name),
        Some(
            ProcAt::SelfLink | ProcAt::Cwd(_) | ProcAt::Root(_) | ProcAt::Exe(_) | ProcAt::Fd(_, _),
        ) => None,
    }
}

/// Whether a name is that of the link to the caller.
fn is_self(name: &[u8]) -> bool
    ensures { result ≡ bytes_eq name.now (codes "self") }
{
    name == b"self".as_slice()
}

/// What a name stands for in the directory of a process.
fn link_named(pid: u32, name: &[u8]) -> Option<ProcAt>
    ensures { result ≡ in_directory pid name.now }
{
    if name == b"cwd".as_slice() {
        Some(ProcAt::Cwd(pid))
    } else if name == b"root".as_slice() {
        Some(ProcAt::Root(pid))
    } else if name == b"exe".as_slice() {
        Some(ProcAt::Exe(pid))
    } else if name == b"fd".as_slice() {
        Some(ProcAt::FdDir(pid))
    } else {
        None
    }
}

/// Numbers of processes have 32 bits.
fn numbers_are_small<T, const M: u8>(state: &State<T, M>)
    ensures { state.now.next_pid < 2 ^ 32 }
{
    // For the proof alone: the field has 32 bits.
    let _next = state.next_pid;
}

/// What a name stands for in the process directory itself.
fn find_process<T: Copy, const M: u8>(state: &State<T, M>, name: &[u8]) -> Option<ProcAt>
    requires { IsSound state.now }
    ensures { result ≡ finds_among (living_of (meaning state.now)) None name.now }
{
    if is_self(name) {
        return Some(ProcAt::SelfLink);
    }
    numbers_are_small(state);
    let pid = number_of(name)?;
    if lives(state, pid) {
        Some(ProcAt::Dir(pid))
    } else {
        None
    }
}

/// What a name stands for in the directory of a process.
fn find_link<T: Copy, const M: u8>(state: &State<T, M>, pid: u32, name: &[u8]) -> Option<ProcAt>
    requires { IsSound state.now }
    ensures { result ≡ finds_among (living_of (meaning state.now)) (Some (at.Dir pid)) name.now }
{
    if lives(state, pid) {
        link_named(pid, name)
    } else {
        None
    }
}

/// What a name stands for in the directory of a process's descriptors.
fn find_descriptor<T: Copy, const M: u8>(
    state: &State<T, M>,
    pid: u32,
    name: &[u8],
) -> Option<ProcAt>
    requires { IsSound state.now }
    ensures { result ≡ finds_among (living_of (meaning state.now)) (Some (at.FdDir pid)) name.now }
{
    let fd = number_of(name)?;
    match state.cloexec(pid, fd) {
        Some(_) => Some(ProcAt::Fd(pid, fd)),
        None => None,
    }
}

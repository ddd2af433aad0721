//! Calls on the mode of a file.
ghost use Rattle.std.specs.Prelude.{◌≡◌, ◌==◌, ℕ, List};
ghost use Rattle.kr_seen.specs.kr_view.View.{Row};
ghost use Rattle.kr_seen.specs.kr_model.AttributeRows.{chmod_host, fchmod_row, fchmodat_row};
ghost use Rattle.kr_seen.specs.kr_model.Operation.{looked_up};
ghost use Rattle.kr_seen.specs.kr_model.Seen.{LooksUp};
ghost use Rattle.kr_seen.specs.kr_ops.Sound.{IsServed, IsSound};
ghost use Rattle.kr_seen.specs.Performing.{PerformsAt, seen_found};
ghost use Rattle.kr_seen.specs.PerformedRows.{Performs};
ghost use Rattle.kr_seen.specs.kr_tree.declared.place.Host.TheVariants.{Node};

use crate::found::open_object;
use kr_seen::below::{Errno, Host, Ino, MODES, Outcome, State, Target, User};
use kr_seen::{is_processes_host, number, refused};

/// fchmodat(2): EPERM of what another owns, of the process directory and of what is in it. The low twelve bits are kept.
pub fn fchmodat<T: Copy, const M: u8>(
    state: &mut State<T, M>,
    target: &Target<T>,
    mode: u32,
) -> Outcome
    requires { IsSound state.old }
    ensures performs { (n : T → ℕ) (table : List Row) (pid : ℕ) → PerformsAt target.now pid (λ k. looked_up (seen_found n table pid state.old target.now LooksUp) (λ l. fchmodat_row k l mode)) state.old state.new result }
    ensures served { IsServed state.new }
{
    match target.found {
        Some(place) => chmod(state, place.host, mode),
        None => refused(Errno::ENOENT),
    }
}

/// fchmod(2): EBADF of a descriptor that isn't open; EPERM of a pipe and of the console, and as fchmodat(2) has it.
pub fn fchmod<T: Copy, const M: u8>(
    state: &mut State<T, M>,
    pid: u32,
    fd: i32,
    mode: u32,
) -> Outcome
    requires { IsSound state.old }
    ensures performs { Performs pid (λ k. fchmod_row k fd mode) state.old state.new result }
    ensures served { IsServed state.new }
{
    let Some(object) = open_object(state, pid, fd) else {
        return refused(Errno::EBADF);
    };
    match object.host {
        Some(host) => chmod(state, host, mode),
        None => refused(Errno::EPERM),
    }
}

/// Gives an object another mode.
fn chmod<T: Copy, const M: u8>(state: &mut State<T, M>, host: Host, mode: u32) -> Outcome
    requires { IsSound state.old }
    ensures performs { (pid : ℕ) → Performs pid (λ k. chmod_host k mode host) state.old state.new result }
    ensures served { IsServed state.new }
{
    match host {
        Host::Node(ino) => chmod_node(state, ino, mode),
        Host::Proc(_, _) => refused(Errno::EPERM),
    }
}

/// Gives an inode another mode.
fn chmod_node<T: Copy, const M: u8>(state: &mut State<T, M>, ino: Ino, mode: u32) -> Outcome
    requires { IsSound state.old }
    ensures performs { (pid : ℕ) → Performs pid (λ k. chmod_host k mode (Node ino)) state.old state.new result }
    ensures served { IsServed state.new }
{
    let Some(meta) = state.tree.meta(ino) else {
        return refused(Errno::ENOENT);
    };
    if is_processes_host(state, Host::Node(ino)) {
        return refused(Errno::EPERM);
    }
    if !is_owner(state.user, meta.uid) {
        return refused(Errno::EPERM);
    }
    state.set_mode(ino, (mode % MODES) as u16);
    number(0)
}

/// Whether the user is the owner of this number.
fn is_owner(user: User, uid: u32) -> bool
    ensures { result ≡ (user.uid == uid) }
{
    user.uid == uid
}

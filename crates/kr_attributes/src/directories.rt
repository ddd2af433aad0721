//! Calls on the working directory and on the root.
ghost use Rattle.std.specs.Prelude.{◌≡◌, ℕ, List, IfErr, IsSome, OnOk};
ghost use Rattle.kr_seen.specs.kr_tree.Tree.{inode};
ghost use Rattle.kr_seen.specs.kr_view.View.{Row};
ghost use Rattle.kr_seen.specs.kr_model.DirectoryRows.{chdir_row, chroot_row, fchdir_row, if_entered};
ghost use Rattle.kr_seen.specs.kr_model.Known.{known};
ghost use Rattle.kr_seen.specs.kr_model.Operation.{looked_up};
ghost use Rattle.kr_seen.specs.kr_model.Reply.{Replying, refuse};
ghost use Rattle.kr_seen.specs.kr_model.Seen.{LooksUp};
ghost use Rattle.kr_seen.specs.kr_model.State.{image_layout, inode_of as host_inode};
ghost use Rattle.kr_seen.specs.kr_ops.Meaning.{meaning};
ghost use Rattle.kr_seen.specs.kr_ops.Sound.{IsServed, IsSound, IsSoundFor};
ghost use Rattle.kr_attributes.specs.Entering.{Enters};
ghost use Rattle.kr_seen.specs.Performing.{PerformsAt, seen_found};
ghost use Rattle.kr_seen.specs.Resolved.{IsFoundIn};
ghost use Rattle.kr_seen.specs.PerformedRows.{Performs};

use crate::found::natural;
use kr_seen::below::{Errno, Host, Outcome, Place, State, Target};
use kr_seen::{is_directory_host, is_searched, number, refused};

/// chdir(2): ENOTDIR, EACCES without search.
pub fn chdir<T: Copy, const M: u8>(state: &mut State<T, M>, pid: u32, target: &Target<T>) -> Outcome
    requires caller { IsSoundFor pid state.old }
    requires found { IsFoundIn state.old.tree target.now }
    ensures performs { (n : T → ℕ) (table : List Row) → PerformsAt target.now pid (λ k. looked_up (seen_found n table pid state.old target.now LooksUp) (λ l. chdir_row k l)) state.old state.new result }
    ensures served { IsServed state.new }
{
    match target.found {
        Some(place) => enter(state, pid, place),
        None => refused(Errno::ENOENT),
    }
}

/// fchdir(2): EBADF of a descriptor that isn't open, ENOTDIR, EACCES without search.
pub fn fchdir<T: Copy, const M: u8>(state: &mut State<T, M>, pid: u32, fd: i32) -> Outcome
    requires { IsSoundFor pid state.old }
    ensures performs { Performs pid (λ k. fchdir_row k fd) state.old state.new result }
    ensures served { IsServed state.new }
{
    let Some(number) = natural(fd) else {
        return refused(Errno::EBADF);
    };
    let Some(opened) = state.opened(pid, number) else {
        return refused(Errno::EBADF);
    };
    match opened.place {
        Some(place) => enter(state, pid, place),
        None => refused(Errno::ENOTDIR),
    }
}

/// chroot(2): ENOTDIR, EACCES without search; EPERM of each other directory, since the user isn't the superuser.
pub fn chroot<T: Copy, const M: u8>(state: &State<T, M>, target: &Target<T>) -> Outcome
    requires { IsSound state.now }
    ensures { (n : T → ℕ) (table : List Row) (pid : ℕ) → PerformsAt target.now pid (λ k. looked_up (seen_found n table pid state.now target.now LooksUp) (λ l. chroot_row k l)) state.now state.now result }
{
    let Some(place) = target.found else {
        return refused(Errno::ENOENT);
    };
    match may_enter(state, place.host) {
        Ok(()) => refused(Errno::EPERM),
        Err(errno) => refused(errno),
    }
}

/// Whether a directory may be entered: ENOTDIR, EACCES without search.
fn may_enter<T: Copy, const M: u8>(state: &State<T, M>, host: Host) -> Result<(), Errno>
    ensures ok { OnOk result ((pid : ℕ) (next : Replying) → if_entered (known image_layout pid (meaning state.now)) host next ≡ next) }
    ensures err { IfErr result (λ errno. (pid : ℕ) (next : Replying) → if_entered (known image_layout pid (meaning state.now)) host next ≡ refuse errno) }
{
    if !is_directory_host(state, host) {
        Err(Errno::ENOTDIR)
    } else if !is_searched(state, host) {
        Err(Errno::EACCES)
    } else {
        Ok(())
    }
}

/// Makes a place the working directory of a process: ENOTDIR, EACCES without search.
fn enter<T: Copy, const M: u8>(state: &mut State<T, M>, pid: u32, place: Place<T>) -> Outcome
    requires caller { IsSoundFor pid state.old }
    requires there { IsSome (inode state.old.tree (host_inode place.host)) }
    ensures performs { Enters pid place state.old state.new result }
    ensures served { IsServed state.new }
{
    match may_enter(state, place.host) {
        Ok(()) => {
            state.change_directory(pid, place);
            number(0)
        }
        Err(errno) => refused(errno),
    }
}

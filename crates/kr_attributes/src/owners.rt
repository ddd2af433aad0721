//! Calls on the owner of a file.
ghost use Rattle.std.specs.Prelude.{◌≡◌, ℕ, [], List};
ghost use Rattle.kr_seen.specs.kr_tree.declared.place.Host.TheVariants.{Node};
ghost use Rattle.kr_seen.specs.kr_view.View.{Row};
ghost use Rattle.kr_seen.specs.kr_model.AttributeRows.{chown_by, chown_host, fchown_row, fchownat_here, fchownat_row, may_give, or_old};
ghost use Rattle.kr_seen.specs.kr_model.Change.{Change};
ghost use Rattle.kr_seen.specs.kr_model.Operation.{looked_up};
ghost use Rattle.kr_seen.specs.kr_model.Seen.{LooksUp};
ghost use Rattle.kr_seen.specs.kr_ops.Sound.{IsServed, IsSound, IsSoundFor};
ghost use Rattle.kr_seen.specs.Performing.{PerformsAt, seen_found};
ghost use Rattle.kr_seen.specs.PerformedRows.{Performs};
ghost use Rattle.kr_attributes.specs.Ruled.{ruled};

use crate::found::{is_working_directory, open_object, working_directory};
use kr_seen::below::{Errno, Host, Ino, Outcome, State, Target, User};
use kr_seen::{number, refused};

/// Leaves a number as it is.
pub const UNCHANGED: u32 = u32::MAX;

/// What chown(2) comes to.
#[derive(Clone, Copy)]
pub(crate) enum Ruling {
    /// Both numbers are left, and nothing is tested.
    Left,
    Given,
    /// EPERM.
    Refused,
}

/// fchownat(2) of a path: EPERM of what another owns, and where it is given to another, or to a group that is neither its own nor
/// the user's.
pub fn fchownat<T: Copy, const M: u8>(
    state: &mut State<T, M>,
    target: &Target<T>,
    uid: u32,
    gid: u32,
) -> Outcome
    requires { IsSound state.old }
    ensures performs { (n : T → ℕ) (table : List Row) (pid : ℕ) → PerformsAt target.now pid (λ k. looked_up (seen_found n table pid state.old target.now LooksUp) (λ l. fchownat_row k l uid gid)) state.old state.new result }
    ensures served { IsServed state.new }
{
    match target.found {
        Some(place) => chown(state, place.host, uid, gid),
        None => refused(Errno::ENOENT),
    }
}

/// fchownat(2) of an empty path: the descriptor, or the working directory.
pub fn fchownat_here<T: Copy, const M: u8>(
    state: &mut State<T, M>,
    pid: u32,
    dirfd: i32,
    uid: u32,
    gid: u32,
) -> Outcome
    requires { IsSoundFor pid state.old }
    ensures performs { Performs pid (λ k. fchownat_here k dirfd uid gid) state.old state.new result }
    ensures served { IsServed state.new }
{
    if is_working_directory(dirfd) {
        let host = working_directory(state, pid);
        chown(state, host, uid, gid)
    } else {
        fchown(state, pid, dirfd, uid, gid)
    }
}

/// fchown(2): EBADF of a descriptor that isn't open; EPERM as fchownat(2) has it. A pipe and the console are the user's.
pub fn fchown<T: Copy, const M: u8>(
    state: &mut State<T, M>,
    pid: u32,
    fd: i32,
    uid: u32,
    gid: u32,
) -> Outcome
    requires { IsSound state.old }
    ensures performs { Performs pid (λ k. fchown_row k fd uid gid) state.old state.new result }
    ensures served { IsServed state.new }
{
    let Some(object) = open_object(state, pid, fd) else {
        return refused(Errno::EBADF);
    };
    match object.host {
        Some(host) => chown(state, host, uid, gid),
        None => chown_own(state, uid, gid),
    }
}

/// Gives an object another owner. What is in the process directory is the user's, and stays so.
fn chown<T: Copy, const M: u8>(state: &mut State<T, M>, host: Host, uid: u32, gid: u32) -> Outcome
    requires { IsSound state.old }
    ensures performs { (pid : ℕ) → Performs pid (λ k. chown_host k uid gid host) state.old state.new result }
    ensures served { IsServed state.new }
{
    match host {
        Host::Node(ino) => chown_node(state, ino, uid, gid),
        Host::Proc(_, _) => chown_own(state, uid, gid),
    }
}

/// Gives an inode another owner.
fn chown_node<T: Copy, const M: u8>(
    state: &mut State<T, M>,
    ino: Ino,
    uid: u32,
    gid: u32,
) -> Outcome
    requires { IsSound state.old }
    ensures performs { (pid : ℕ) → Performs pid (λ k. chown_host k uid gid (Node ino)) state.old state.new result }
    ensures served { IsServed state.new }
{
    let Some(meta) = state.tree.meta(ino) else {
        return refused(Errno::ENOENT);
    };
    let owner = User {
        uid: meta.uid,
        gid: meta.gid,
    };
    match rule(state.user, owner, uid, gid) {
        Ruling::Left => number(0),
        Ruling::Given => {
            state.set_owner(ino, or_old(uid, meta.uid), or_old(gid, meta.gid));
            number(0)
        }
        Ruling::Refused => refused(Errno::EPERM),
    }
}

/// Gives what is the user's and keeps no owner another one, which changes nothing.
fn chown_own<T: Copy, const M: u8>(state: &State<T, M>, uid: u32, gid: u32) -> Outcome
    requires { IsSound state.now }
    ensures { (pid : ℕ) → Performs pid (λ k. chown_by k.user k.user uid gid []) state.now state.now result }
{
    match rule(state.user, state.user, uid, gid) {
        Ruling::Left => number(0),
        Ruling::Given => number(0),
        Ruling::Refused => refused(Errno::EPERM),
    }
}

/// The rule of owners: the user owns it, gives it to nobody else, and to no group but its own or the user's.
fn rule(user: User, owner: User, uid: u32, gid: u32) -> Ruling
    ensures { (changes : List Change) → chown_by user owner uid gid changes ≡ ruled result changes }
{
    if uid == UNCHANGED && gid == UNCHANGED {
        Ruling::Left
    } else if may_give(user, owner, uid, gid) {
        Ruling::Given
    } else {
        Ruling::Refused
    }
}

/// Whether the user may give what has one owner to another.
fn may_give(user: User, owner: User, uid: u32, gid: u32) -> bool
    ensures { result ≡ may_give user owner uid gid }
{
    user.uid == owner.uid
        && (uid == UNCHANGED || uid == owner.uid)
        && (gid == UNCHANGED || gid == owner.gid || gid == user.gid)
}

/// The number that is to stand, where all ones leave the old one.
pub fn or_old(new: u32, old: u32) -> u32
    ensures { result ≡ or_old new old }
{
    if new == UNCHANGED { old } else { new }
}

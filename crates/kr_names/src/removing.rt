//! Names that go.
ghost use Rattle.std.specs.Prelude.{◌≡◌, ◌≢◌, ℕ, true, IfOk, Some};
ghost use Rattle.kr_seen.specs.kr_inode.Inode.{Inode};
ghost use Rattle.kr_seen.specs.kr_inode.Stored.{meta_of};
ghost use Rattle.kr_seen.specs.kr_tree.Rights.{is_kept_by_sticky};
ghost use Rattle.kr_seen.specs.kr_tree.Tree.{body_is, takes_names};
ghost use Rattle.kr_seen.specs.kr_model.Applied.{Mounts};
ghost use Rattle.kr_seen.specs.kr_model.Known.{known};
ghost use Rattle.kr_seen.specs.kr_model.NameRows.{ending_removed, removes_directory, rmdir_found, rmdir_row, unlink_found, unlink_row, unlinkat_row};
ghost use Rattle.kr_seen.specs.kr_model.State.{image_layout};
ghost use Rattle.kr_seen.specs.kr_model.declared.outcome.Outcome.TheVariants.{NoMemory as WantOfMemory};
ghost use Rattle.kr_seen.specs.kr_ops.Meaning.{meaning};
ghost use Rattle.kr_seen.specs.kr_ops.Sound.{IsServed, IsSound};
ghost use Rattle.kr_seen.specs.Carrying.{CarriesOut};
ghost use Rattle.kr_seen.specs.Performing.{PerformsAt, seen_taken};
ghost use Rattle.kr_seen.specs.Resolved.{IsEntryIn};
ghost use Rattle.kr_seen.specs.Told.{entered_told};
ghost use Rattle.kr_names.specs.Taking.{AnswersTakable, IsEntryOf};

use bitflags::Flags;
use kr_seen::below::{AtFlags, Errno, Host, Ino, Last, Meta, Outcome, Places, State, Target, User};
use kr_seen::{
    Entered, Taken, is_directory_host, is_processes_host, number, refused, taken, writable,
};

/// An entry that the user may take away: its directory and its inode.
#[derive(Clone, Copy)]
pub(crate) struct Takable {
    pub(crate) dir: Ino,
    pub(crate) ino: Ino,
}

/// The sticky bit of a mode.
const STICKY: u16 = 0o1000;

/// Whether the sticky bit of a directory keeps the user from taking an entry away: who owns neither may not.
pub(crate) fn is_kept_by_sticky(user: User, dir: Meta, entry: Meta) -> bool
    ensures { (d e : Inode) → dir ≡ meta_of d → entry ≡ meta_of e → result ≡ is_kept_by_sticky user d.node e.node }
{
    dir.mode / STICKY % 2 == 1 && user.uid != dir.uid && user.uid != entry.uid
}

/// The entry at which something was found, if the user may take it away: ENOENT or EACCES of the directory, EPERM by its sticky
/// bit. What stands in the process directory is refused with its directory.
pub(crate) fn entry_to_take<T: Copy, const M: u8>(
    state: &State<T, M>,
    entered: Entered<'_>,
    found: Host,
) -> Result<Takable, Errno>
    requires { IsSound state.now }
    ensures row { (pid : ℕ) → AnswersTakable (known image_layout pid (meaning state.now)) (entered_told entered.entry) found result }
    ensures takes { IfOk result (λ t. body_is takes_names state.now.tree t.dir ≡ true) }
{
    let dir = match writable(state, entered.dir) {
        Ok(dir) => dir,
        Err(errno) => return Err(errno),
    };
    let ino = match found {
        Host::Node(ino) => ino,
        Host::Proc(_, _) => return Err(Errno::EACCES),
    };
    let Some(node) = state.tree.meta(ino) else {
        return Err(Errno::ENOENT);
    };
    let Some(above) = state.tree.meta(dir) else {
        unreachable!();
    };
    if is_kept_by_sticky(state.user, above, node) {
        Err(Errno::EPERM)
    } else {
        Ok(Takable { dir, ino })
    }
}

/// Takes the name of what is no directory away: EBUSY of the process directory; of a slash EISDIR of a directory and else ENOTDIR;
/// ENOENT or EACCES of the directory, EPERM by its sticky bit, EISDIR.
fn unlink_found<T: Copy, const M: u8>(
    state: &mut State<T, M>,
    pid: u32,
    entered: Entered<'_>,
    found: Host,
) -> Outcome
    requires sound { IsSound state.old }
    requires entry { IsEntryOf state.old.tree entered found }
    ensures performs { (mounts : Mounts T) → CarriesOut mounts pid (λ k. unlink_found k (entered_told entered.entry) found) state.old state.new result }
    ensures served { IsServed state.new }
{
    if is_processes_host(state, found) {
        return refused(Errno::EBUSY);
    }
    if entered.slash {
        if is_directory_host(state, found) {
            return refused(Errno::EISDIR);
        }
        return refused(Errno::ENOTDIR);
    }
    match entry_to_take(state, entered, found) {
        Ok(entry) => {
            if state.tree.is_directory(entry.ino) {
                return refused(Errno::EISDIR);
            }
            state.remove_name(entry.dir, entered.name);
            number(0)
        }
        Err(errno) => refused(errno),
    }
}

/// Takes the name of a directory away: EBUSY of the process directory; ENOENT or EACCES of the directory above, EPERM by its sticky
/// bit, ENOTDIR, ENOTEMPTY.
fn rmdir_found<T: Copy, const M: u8>(
    state: &mut State<T, M>,
    pid: u32,
    entered: Entered<'_>,
    found: Host,
) -> Outcome
    requires sound { IsSound state.old }
    requires entry { IsEntryOf state.old.tree entered found }
    ensures performs { (mounts : Mounts T) → CarriesOut mounts pid (λ k. rmdir_found k (entered_told entered.entry) found) state.old state.new result }
    ensures served { IsServed state.new }
{
    if is_processes_host(state, found) {
        return refused(Errno::EBUSY);
    }
    match entry_to_take(state, entered, found) {
        Ok(entry) => {
            if !state.tree.is_directory(entry.ino) {
                return refused(Errno::ENOTDIR);
            }
            if state.tree.is_filled(entry.ino) {
                return refused(Errno::ENOTEMPTY);
            }
            state.remove_name(entry.dir, entered.name);
            number(0)
        }
        Err(errno) => refused(errno),
    }
}

/// unlinkat(2) of what is no directory: EISDIR of an ending that is no name; ENOENT; EBUSY of a mount point; and then as
/// [`unlink_found`].
fn unlink<P: Places, const M: u8>(
    state: &mut State<P::Mount, M>,
    places: &P,
    pid: u32,
    target: &Target<P::Mount>,
) -> Outcome
    requires sound { IsSound state.old }
    requires entry { IsEntryIn state.old.tree (P.mounts places.now) target.now }
    ensures performs { PerformsAt target.now pid (λ k. unlink_row k (seen_taken P.number (P.mounts places.now) pid state.old target.now)) state.old state.new result }
    ensures served { IsServed state.new }
{
    match taken(places, target) {
        Taken::NoName(_last) => refused(Errno::EISDIR),
        Taken::Covered => refused(Errno::EBUSY),
        Taken::Takes(entered) => match entered.found {
            Some(found) => unlink_found(state, pid, entered, found),
            None => refused(Errno::ENOENT),
        },
    }
}

/// What is answered of a directory to be removed that has no name.
fn ending_removed(last: Last) -> Errno
    ensures { result ≡ ending_removed last }
{
    match last {
        Last::Name => Errno::ENOENT,
        Last::Dot => Errno::EINVAL,
        Last::DotDot => Errno::ENOTEMPTY,
        Last::Root => Errno::EBUSY,
    }
}

/// unlinkat(2) of a directory: EINVAL of `.`, ENOTEMPTY of `..`, EBUSY of the root; ENOENT; EBUSY of a mount point; and then as
/// [`rmdir_found`]. A slash is ignored.
fn rmdir<P: Places, const M: u8>(
    state: &mut State<P::Mount, M>,
    places: &P,
    pid: u32,
    target: &Target<P::Mount>,
) -> Outcome
    requires sound { IsSound state.old }
    requires entry { IsEntryIn state.old.tree (P.mounts places.now) target.now }
    ensures performs { PerformsAt target.now pid (λ k. rmdir_row k (seen_taken P.number (P.mounts places.now) pid state.old target.now)) state.old state.new result }
    ensures served { IsServed state.new }
{
    match taken(places, target) {
        Taken::NoName(last) => refused(ending_removed(last)),
        Taken::Covered => refused(Errno::EBUSY),
        Taken::Takes(entered) => match entered.found {
            Some(found) => rmdir_found(state, pid, entered, found),
            None => refused(Errno::ENOENT),
        },
    }
}

/// unlinkat(2): with AT_REMOVEDIR a directory goes, and without it what is none.
///
/// Without: EISDIR of an ending that is no name; ENOENT; EBUSY of a mount point and of the process directory; of a slash EISDIR of a
/// directory and else ENOTDIR; ENOENT or EACCES of the directory, EPERM by its sticky bit, EISDIR.
///
/// With: EINVAL of `.`, ENOTEMPTY of `..`, EBUSY of the root; ENOENT; EBUSY of a mount point and of the process directory; ENOENT or
/// EACCES of the directory above, EPERM by its sticky bit, ENOTDIR, ENOTEMPTY. A slash is ignored.
pub fn unlinkat<P: Places, const M: u8>(
    state: &mut State<P::Mount, M>,
    places: &P,
    pid: u32,
    target: &Target<P::Mount>,
    flags: u32,
) -> Outcome
    requires sound { IsSound state.old }
    requires entry { IsEntryIn state.old.tree (P.mounts places.now) target.now }
    ensures performs { PerformsAt target.now pid (λ k. unlinkat_row k (seen_taken P.number (P.mounts places.now) pid state.old target.now) flags) state.old state.new result }
    ensures served { IsServed state.new }
{
    if removes_directory(flags) {
        rmdir(state, places, pid, target)
    } else {
        unlink(state, places, pid, target)
    }
}

/// Whether flags ask for a directory to be removed.
fn removes_directory(flags: u32) -> bool
    ensures { result ≡ removes_directory flags }
{
    flags & AtFlags::REMOVEDIR.bits() == AtFlags::REMOVEDIR.bits()
}

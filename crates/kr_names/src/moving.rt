//! Names that move.
ghost use Rattle.std.specs.Prelude.{◌≡◌, ◌≢◌, ◌+◌, ◌<◌, ◌^◌, ◌&&◌, ◌||◌, not, ℕ, true, false, None, Some, IfOk};
ghost use Rattle.std.specs.Option.{option_map_or};
ghost use Rattle.kr_seen.specs.kr_tree.Changes.{next_serial};
ghost use Rattle.kr_seen.specs.kr_tree.Lawful.{IsSound as IsSoundTree};
ghost use Rattle.kr_seen.specs.kr_tree.Rights.{is_kept_by_sticky};
ghost use Rattle.kr_seen.specs.kr_tree.Tree.{Node, body_is, takes_names};
ghost use Rattle.kr_seen.specs.kr_tree.declared.place.Host.{Host as AnyHost};
ghost use Rattle.kr_seen.specs.kr_tree.declared.place.Host.TheVariants.{Node as AtNode};
ghost use Rattle.kr_seen.specs.kr_model.Applied.{Mounts};
ghost use Rattle.kr_seen.specs.kr_model.Asking.{is_directory_host, is_processes_host};
ghost use Rattle.kr_seen.specs.kr_model.Known.{known, known_node};
ghost use Rattle.kr_seen.specs.kr_model.NameRows.{can_move, is_above_old, is_at_or_above, is_one, move_entry, move_found};
ghost use Rattle.kr_seen.specs.kr_model.Operation.{moved as if_moved};
ghost use Rattle.kr_seen.specs.kr_model.State.{image_layout, inode_of as host_inode};
ghost use Rattle.kr_seen.specs.kr_model.declared.outcome.Outcome.TheVariants.{NoMemory as WantOfMemory};
ghost use Rattle.kr_seen.specs.kr_ops.Meaning.{meaning};
ghost use Rattle.kr_seen.specs.kr_ops.Sound.{IsServed, IsSound};
ghost use Rattle.kr_seen.specs.Carrying.{CarriesOut};
ghost use Rattle.kr_seen.specs.Performing.{PerformsAt, seen_moved};
ghost use Rattle.kr_seen.specs.Resolved.{IsEntryIn, IsFreeIn};
ghost use Rattle.kr_seen.specs.Told.{entered_told};
ghost use Rattle.kr_names.specs.Adding.{IsFreeName};
ghost use Rattle.kr_names.specs.Moving.{AnswersMovable, AnswersOnto, AnswersOver, HasNodes, IsLike};
ghost use Rattle.kr_names.specs.Taking.{IsEntryOf};

use crate::above::{is_at_or_above, same_host};
use crate::removing::is_kept_by_sticky;
use kr_seen::below::{Errno, Host, Ino, Outcome, Places, Right, State, Target};
use kr_seen::{
    Entered, Taken, is_directory_host, is_processes_host, moved, number, refused, writable,
};

/// An entry that goes from one directory to another: both, and the inode that is moved.
#[derive(Clone, Copy)]
pub(crate) struct Moving {
    pub(crate) dir: Ino,
    pub(crate) to: Ino,
    pub(crate) ino: Ino,
}

/// Whether the sticky bit of a directory keeps the user from moving an entry.
fn is_kept<T: Copy, const M: u8>(state: &State<T, M>, dir: Ino, ino: Ino) -> bool
    ensures { (pid : ℕ) (d n : Node) → known_node (known image_layout pid (meaning state.now)) dir ≡ Some d → known_node (known image_layout pid (meaning state.now)) ino ≡ Some n → result ≡ is_kept_by_sticky state.now.user d n }
{
    match (state.tree.meta(dir), state.tree.meta(ino)) {
        (Some(above), Some(node)) => is_kept_by_sticky(state.user, above, node),
        _ => false,
    }
}

/// Whether what is moved may change its parent: a directory takes the right to write to it.
fn can_move<T: Copy, const M: u8>(state: &State<T, M>, entry: Moving) -> bool
    ensures { (pid : ℕ) (n : Node) → known_node (known image_layout pid (meaning state.now)) entry.ino ≡ Some n → result ≡ can_move (known image_layout pid (meaning state.now)) entry.dir entry.to n }
{
    !state.tree.is_directory(entry.ino)
        || entry.dir == entry.to
        || state.tree.may(state.user, entry.ino, Right::Write)
}

/// The entry at which something was found, and the directory into which it goes: ENOENT or EACCES of the old directory, then of the
/// new one. What stands in the process directory is refused with its directory.
fn entry_to_move<T: Copy, const M: u8>(
    state: &State<T, M>,
    old: Entered<'_>,
    new: Entered<'_>,
    found: Host,
) -> Result<Moving, Errno>
    requires { IsSound state.now }
    ensures row { (pid : ℕ) → AnswersMovable (known image_layout pid (meaning state.now)) (entered_told old.entry) (entered_told new.entry) found result }
    ensures takes { IfOk result (λ m. body_is takes_names state.now.tree m.to ≡ true) }
    ensures leaves { IfOk result (λ m. body_is takes_names state.now.tree m.dir ≡ true) }
{
    let dir = match writable(state, old.dir) {
        Ok(dir) => dir,
        Err(errno) => return Err(errno),
    };
    let ino = match found {
        Host::Node(ino) => ino,
        Host::Proc(_, _) => return Err(Errno::EACCES),
    };
    let to = match writable(state, new.dir) {
        Ok(to) => to,
        Err(errno) => return Err(errno),
    };
    let Some(_meta) = state.tree.meta(ino) else {
        return Err(Errno::ENOENT);
    };
    Ok(Moving { dir, to, ino })
}

/// The tests of a move onto a free name: EPERM by the sticky bit, EACCES of a directory that changes its parent.
fn test_free<T: Copy, const M: u8>(state: &State<T, M>, entry: Moving) -> Result<(), Errno>
    ensures { (pid : ℕ) (above below node : Node) → HasNodes (known image_layout pid (meaning state.now)) entry above below node → AnswersOnto (known image_layout pid (meaning state.now)) entry None above below node result }
{
    if is_kept(state, entry.dir, entry.ino) {
        Err(Errno::EPERM)
    } else if can_move(state, entry) {
        Ok(())
    } else {
        Err(Errno::EACCES)
    }
}

/// The tests of the kinds where one entry takes the place of another: EACCES of a directory that changes its parent, ENOTDIR,
/// EISDIR, ENOTEMPTY.
fn test_kinds<T: Copy, const M: u8>(
    state: &State<T, M>,
    entry: Moving,
    over: Ino,
) -> Result<(), Errno>
    ensures row { (pid : ℕ) (node x : Node) → let k = known image_layout pid (meaning state.now) in
        known_node k entry.ino ≡ Some node → known_node k over ≡ Some x → AnswersOver k entry node x result }
    ensures like { IfOk result (λ u. IsLike state.now.tree entry.ino (Some (AtNode over))) }
{
    if !can_move(state, entry) {
        return Err(Errno::EACCES);
    }
    let is_dir = state.tree.is_directory(entry.ino);
    let over_dir = state.tree.is_directory(over);
    if is_dir != over_dir {
        if is_dir {
            return Err(Errno::ENOTDIR);
        }
        return Err(Errno::EISDIR);
    }
    if state.tree.is_filled(over) {
        return Err(Errno::ENOTEMPTY);
    }
    Ok(())
}

/// The tests of a move in place of what is there: EPERM by the sticky bit of the old directory, then of the new one, and then as
/// [`test_kinds`].
fn test_over<T: Copy, const M: u8>(
    state: &State<T, M>,
    entry: Moving,
    over: Ino,
) -> Result<(), Errno>
    ensures row { (pid : ℕ) (above below node : Node) → HasNodes (known image_layout pid (meaning state.now)) entry above below node → AnswersOnto (known image_layout pid (meaning state.now)) entry (Some (AtNode over)) above below node result }
    ensures like { IfOk result (λ u. IsLike state.now.tree entry.ino (Some (AtNode over))) }
{
    if is_kept(state, entry.dir, entry.ino) {
        return Err(Errno::EPERM);
    }
    let Some(_meta) = state.tree.meta(over) else {
        return Err(Errno::ENOENT);
    };
    if is_kept(state, entry.to, over) {
        return Err(Errno::EPERM);
    }
    test_kinds(state, entry, over)
}

/// The tests of both entries, as of a free name or of what is there.
fn test_onto<T: Copy, const M: u8>(
    state: &State<T, M>,
    entry: Moving,
    over: Option<Host>,
) -> Result<(), Errno>
    ensures row { (pid : ℕ) (above below node : Node) → HasNodes (known image_layout pid (meaning state.now)) entry above below node → AnswersOnto (known image_layout pid (meaning state.now)) entry over above below node result }
    ensures like { IfOk result (λ u. IsLike state.now.tree entry.ino over) }
{
    match over {
        None => test_free(state, entry),
        Some(host) => match host {
            Host::Node(ino) => test_over(state, entry, ino),
            Host::Proc(_, _) => Err(Errno::EACCES),
        },
    }
}

/// Moves an entry: ENOENT or EACCES of the old directory, then of the new one; EPERM of the old entry, then of the new one; EACCES of
/// a directory that changes its parent; ENOTDIR, EISDIR, ENOTEMPTY by the kinds of both.
fn move_entry<T: Copy, const M: u8>(
    state: &mut State<T, M>,
    pid: u32,
    old: Entered<'_>,
    new: Entered<'_>,
    found: Host,
) -> Outcome
    requires sound { IsSound state.old }
    requires tree { IsSoundTree state.old.tree }
    requires entry { IsEntryOf state.old.tree old found }
    requires over { (host : AnyHost) → new.found ≡ Some host → IsEntryOf state.old.tree new host }
    requires free { new.found ≡ None → IsFreeName state.old.tree new.dir new.name.now }
    requires apart { (k : ℕ) → is_at_or_above (known image_layout k (meaning state.old)) found new.dir ≡ false }
    requires serials { next_serial state.old.tree (host_inode new.dir) + 1 < 2 ^ 64 }
    ensures performs { (mounts : Mounts T) → CarriesOut mounts pid (λ k. move_entry k (entered_told old.entry) (entered_told new.entry) found) state.old state.new result }
    ensures served { result ≢ WantOfMemory → IsServed state.new }
{
    let entry = match entry_to_move(state, old, new, found) {
        Ok(entry) => entry,
        Err(errno) => return refused(errno),
    };
    match test_onto(state, entry, new.found) {
        Ok(()) => match state.move_name(entry.dir, old.name, entry.to, new.name) {
            Ok(()) => number(0),
            Err(_) => Outcome::NoMemory,
        },
        Err(errno) => refused(errno),
    }
}

/// Whether something was found that is the process directory itself.
fn is_processes_found<T: Copy, const M: u8>(state: &State<T, M>, found: Option<Host>) -> bool
    ensures { (pid : ℕ) → result ≡ option_map_or (is_processes_host (known image_layout pid (meaning state.now))) found false }
{
    match found {
        Some(host) => is_processes_host(state, host),
        None => false,
    }
}

/// Whether a slash stands behind one of the names of what is no directory.
fn has_lost_slash<T: Copy, const M: u8>(
    state: &State<T, M>,
    old: Entered<'_>,
    new: Entered<'_>,
    found: Host,
) -> bool
    ensures { (pid : ℕ) → result ≡ (not (is_directory_host (known image_layout pid (meaning state.now)) found) && (old.entry.slash || new.entry.slash)) }
{
    !is_directory_host(state, found) && (old.slash || new.slash)
}

/// Whether what is to be replaced is the old directory or above it.
fn is_above_old<T: Copy, const M: u8>(
    state: &State<T, M>,
    old: Entered<'_>,
    over: Option<Host>,
) -> bool
    ensures { (pid : ℕ) → result ≡ is_above_old (known image_layout pid (meaning state.now)) (entered_told old.entry) over }
{
    match over {
        Some(host) => is_at_or_above(state, host, old.dir),
        None => false,
    }
}

/// Whether both names are of one object.
pub fn is_one(found: Host, over: Option<Host>) -> bool
    ensures { result ≡ is_one found over }
{
    match over {
        Some(host) => same_host(found, host),
        None => false,
    }
}

/// Moves what was found: EBUSY of the process directory, old or new; ENOTDIR of a slash behind what is no directory; EINVAL where the
/// old entry is the new directory or above it; ENOTEMPTY where the new one is the old directory or above it; 0 with no change for
/// two names of one object; and then as [`move_entry`].
fn move_found<T: Copy, const M: u8>(
    state: &mut State<T, M>,
    pid: u32,
    old: Entered<'_>,
    new: Entered<'_>,
    found: Host,
) -> Outcome
    requires sound { IsSound state.old }
    requires tree { IsSoundTree state.old.tree }
    requires entry { IsEntryOf state.old.tree old found }
    requires over { (host : AnyHost) → new.found ≡ Some host → IsEntryOf state.old.tree new host }
    requires free { new.found ≡ None → IsFreeName state.old.tree new.dir new.name.now }
    requires serials { next_serial state.old.tree (host_inode new.dir) + 1 < 2 ^ 64 }
    ensures performs { (mounts : Mounts T) → CarriesOut mounts pid (λ k. move_found k (entered_told old.entry) (entered_told new.entry) found) state.old state.new result }
    ensures served { result ≢ WantOfMemory → IsServed state.new }
{
    if is_processes_host(state, found) {
        return refused(Errno::EBUSY);
    }
    if is_processes_found(state, new.found) {
        return refused(Errno::EBUSY);
    }
    if has_lost_slash(state, old, new, found) {
        return refused(Errno::ENOTDIR);
    }
    if is_at_or_above(state, found, new.dir) {
        return refused(Errno::EINVAL);
    }
    if is_above_old(state, old, new.found) {
        return refused(Errno::ENOTEMPTY);
    }
    if is_one(found, new.found) {
        return number(0);
    }
    move_entry(state, pid, old, new, found)
}

/// renameat2(2) without flags: EXDEV; EBUSY of an ending that is no name; ENOENT of the old entry; EBUSY of an old entry, then of a
/// new one, at which a mount stands; and then as [`move_found`].
pub fn renameat2<P: Places, const M: u8>(
    state: &mut State<P::Mount, M>,
    places: &P,
    pid: u32,
    old: &Target<P::Mount>,
    new: &Target<P::Mount>,
) -> Outcome
    requires sound { IsSound state.old }
    requires tree { IsSoundTree state.old.tree }
    requires entry { IsEntryIn state.old.tree (P.mounts places.now) old.now }
    requires free { IsFreeIn state.old.tree new.now }
    requires over { IsEntryIn state.old.tree (P.mounts places.now) new.now }
    requires serials { next_serial state.old.tree (host_inode new.now.dir.host) + 1 < 2 ^ 64 }
    ensures performs { PerformsAt old.now pid (λ k. if_moved (seen_moved P.number (P.mounts places.now) pid state.old old.now new.now) k) state.old state.new result }
    ensures served { result ≢ WantOfMemory → IsServed state.new }
{
    let moved = moved(places, old, new);
    if !moved.same_mount {
        return refused(Errno::EXDEV);
    }
    match moved.old {
        Taken::NoName(_last) => refused(Errno::EBUSY),
        Taken::Covered => refused(Errno::EBUSY),
        Taken::Takes(from) => match moved.new {
            Taken::NoName(_last) => refused(Errno::EBUSY),
            Taken::Covered => match from.found {
                Some(_found) => refused(Errno::EBUSY),
                None => refused(Errno::ENOENT),
            },
            Taken::Takes(to) => match from.found {
                Some(found) => move_found(state, pid, from, to, found),
                None => refused(Errno::ENOENT),
            },
        },
    }
}

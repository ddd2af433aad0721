//! Opening what is there.
ghost use Rattle.std.specs.Prelude.{◌≡◌, ◌≢◌, ◌+◌, ◌<◌, ◌^◌, ◌&&◌, ◌||◌, ℕ, false, true, Some, IsSome, IfOk};
ghost use Rattle.std.specs.Option.{option_map, option_map_or};
ghost use Rattle.kr_seen.specs.kr_inode.Inode.{Node as NodeWord};
ghost use Rattle.kr_seen.specs.kr_tree.Changes.{byte_limit};
ghost use Rattle.kr_seen.specs.kr_tree.Rights.{allows};
ghost use Rattle.kr_seen.specs.kr_tree.Tree.{body_is, inode, is_file};
ghost use Rattle.kr_seen.specs.kr_tree.declared.place.Host.TheVariants.{Node};
ghost use Rattle.kr_seen.specs.kr_view.Component.{is_process_directory};
ghost use Rattle.kr_seen.specs.kr_view.InTree.{IsObjectOf};
ghost use Rattle.kr_seen.specs.kr_files.declared.opened.Opened.{Opened as OpenedWord};
ghost use Rattle.kr_seen.specs.kr_model.Applied.{Mounts, in_mount};
ghost use Rattle.kr_seen.specs.kr_model.FileRows.{has_rights, open_directory, open_file, open_found, open_host, opens_as};
ghost use Rattle.kr_seen.specs.kr_model.Known.{known, known_node};
ghost use Rattle.kr_seen.specs.kr_model.State.{image_layout, inode_of as host_inode};
ghost use Rattle.kr_seen.specs.kr_model.declared.outcome.Outcome.TheVariants.{NoMemory as WantOfMemory};
ghost use Rattle.kr_seen.specs.kr_ops.Meaning.{meaning};
ghost use Rattle.kr_seen.specs.kr_ops.Sound.{IsServed, IsSoundFor};
ghost use Rattle.kr_seen.specs.Carrying.{CarriesOut};
ghost use Rattle.kr_seen.specs.Told.{entry_told, looked_told};
ghost use Rattle.kr_names.specs.Opening.{entry_dir, entry_name, HasRoomLeft};

use crate::flags::{
    appends, changes, closes_on_exec, makes_anew, truncates, wants_directory, wants_read,
    wants_write,
};
use kr_seen::below::{
    Bytes, Errno, FilesRefusal, Host, Ino, Kind, NoMemory, Opened, Outcome, Place, ProcAt, Right,
    State, TreeRefusal, What,
};
use kr_seen::{Entry, Looked, number, refused};
use std::alloc::Global;

/// An open file at its front.
pub(crate) fn opened_as<T: Copy>(
    place: Place<T>,
    what: What,
    dir: Ino,
    name: Bytes,
    flags: u32,
) -> Opened<T>
    ensures { result ≡ in_mount place.mount (opens_as what place.host dir name flags) }
{
    Opened {
        place: Some(place),
        dir,
        name,
        what,
        read: wants_read(flags),
        write: wants_write(flags),
        append: appends(flags),
        at: 0,
    }
}

/// Opens a directory: EISDIR to write, make or cut it, EACCES, EMFILE.
fn open_directory<T: Copy, const M: u8>(
    alloc: Global,
    state: &mut State<T, M>,
    pid: u32,
    place: Place<T>,
    flags: u32,
    readable: bool,
) -> Outcome
    requires caller { IsSoundFor pid state.old }
    requires files { state.old.files.table.last_file + 1 < 2 ^ 64 }
    requires there { IsSome (inode state.old.tree (host_inode place.host)) }
    ensures performs { (mounts : Mounts T) → mounts.found ≡ Some place.mount → CarriesOut mounts pid (λ k. open_directory k flags place.host readable) state.old state.new result }
    ensures served { result ≢ WantOfMemory → IsServed state.new }
{
    if changes(flags) {
        return refused(Errno::EISDIR);
    }
    if !readable {
        return refused(Errno::EACCES);
    }
    let opened = opened_as(place, What::Dir, 0, Bytes::new(alloc), flags);
    match state.open(pid, opened, closes_on_exec(flags)) {
        Ok(fd) => number(fd),
        Err(FilesRefusal::Full) => refused(Errno::EMFILE),
        Err(FilesRefusal::NoMemory) => Outcome::NoMemory,
    }
}

/// Whether the user has the rights that an opening asks for. O_TRUNC needs the right to write.
fn has_rights<T: Copy, const M: u8>(state: &State<T, M>, ino: Ino, flags: u32) -> bool
    ensures { (pid : ℕ) (n : NodeWord) → known_node (known image_layout pid (meaning state.now)) ino ≡ Some n → result ≡ has_rights (known image_layout pid (meaning state.now)) n flags }
{
    let may_read = !wants_read(flags) || state.tree.may(state.user, ino, Right::Read);
    let writes = wants_write(flags) || truncates(flags);
    may_read && (!writes || state.tree.may(state.user, ino, Right::Write))
}

/// The directory of an entry, 0 where there is none.
fn entry_dir(entry: Option<Entry<'_>>) -> Ino
    ensures { result ≡ entry_dir (option_map entry_told entry.entry) }
{
    match entry {
        Some(entry) => entry.dir,
        None => 0,
    }
}

/// A copy of the name of an entry, empty where there is none.
fn entry_name(alloc: Global, entry: Option<Entry<'_>>) -> Result<Bytes, NoMemory>
    ensures { IfOk result (λ name. name ≡ entry_name (option_map entry_told entry.entry)) }
{
    match entry {
        Some(entry) => Bytes::copy(alloc, entry.name),
        None => Ok(Bytes::new(alloc)),
    }
}

/// Opens a file: ENOTDIR with O_DIRECTORY, EACCES, EMFILE; then O_TRUNC cuts it to 0.
fn open_file<T: Copy, const M: u8>(
    alloc: Global,
    state: &mut State<T, M>,
    pid: u32,
    place: Place<T>,
    ino: Ino,
    entry: Option<Entry<'_>>,
    flags: u32,
) -> Outcome
    requires caller { IsSoundFor pid state.old }
    requires files { state.old.files.table.last_file + 1 < 2 ^ 64 }
    requires host { place.host ≡ Node ino }
    requires file { body_is is_file state.old.tree ino ≡ true }
    requires room { HasRoomLeft state.old.tree }
    ensures performs { (mounts : Mounts T) (n : NodeWord) → mounts.found ≡ Some place.mount → known_node (known image_layout pid (meaning state.old)) ino ≡ Some n
        → CarriesOut mounts pid (λ k. open_file k flags ino n (entry_dir (option_map entry_told entry.entry)) (entry_name (option_map entry_told entry.entry))) state.old state.new result }
    ensures served { result ≢ WantOfMemory → IsServed state.new }
{
    if wants_directory(flags) {
        return refused(Errno::ENOTDIR);
    }
    if !has_rights(state, ino, flags) {
        return refused(Errno::EACCES);
    }
    let dir = entry_dir(entry);
    let name = match entry_name(alloc, entry) {
        Ok(name) => name,
        Err(NoMemory) => return Outcome::NoMemory,
    };
    let opened = opened_as(place, What::File, dir, name, flags);
    let fd = match state.open(pid, opened, closes_on_exec(flags)) {
        Ok(fd) => fd,
        Err(FilesRefusal::Full) => return refused(Errno::EMFILE),
        Err(FilesRefusal::NoMemory) => return Outcome::NoMemory,
    };
    if truncates(flags) {
        match state.set_size(ino, 0) {
            Ok(()) => number(fd),
            Err(TreeRefusal::Full) => unreachable!(),
            Err(TreeRefusal::TooBig) => unreachable!(),
            Err(TreeRefusal::NoMemory) => Outcome::NoMemory,
        }
    } else {
        number(fd)
    }
}

/// Opens an inode: ELOOP of a link, and else as [`open_directory`] and [`open_file`].
fn open_node<T: Copy, const M: u8>(
    alloc: Global,
    state: &mut State<T, M>,
    pid: u32,
    mount: T,
    ino: Ino,
    looked: Looked<'_>,
    flags: u32,
) -> Outcome
    requires caller { IsSoundFor pid state.old }
    requires files { state.old.files.table.last_file + 1 < 2 ^ 64 }
    requires room { HasRoomLeft state.old.tree }
    ensures performs { (mounts : Mounts T) → mounts.found ≡ Some mount → CarriesOut mounts pid (λ k. open_host k flags (looked_told looked.entry) (Node ino)) state.old state.new result }
    ensures served { result ≢ WantOfMemory → IsServed state.new }
{
    let place = Place {
        mount,
        host: Host::Node(ino),
    };
    if state.tree.is_directory(ino) {
        let readable = state.tree.may(state.user, ino, Right::Read);
        return open_directory(alloc, state, pid, place, flags, readable);
    }
    if state.tree.is_file(ino) {
        return open_file(alloc, state, pid, place, ino, looked.entry, flags);
    }
    if state.tree.may_be_linked(ino) {
        refused(Errno::ELOOP)
    } else {
        refused(Errno::ENOENT)
    }
}

/// Whether what stands in the process directory is a directory.
fn is_process_directory(at: ProcAt) -> bool
    ensures { result ≡ is_process_directory at }
{
    matches!(at, ProcAt::Dir(_) | ProcAt::FdDir(_))
}

/// Opens an object. The directories in the process directory are the user's and can be read; all else in it is a link.
fn open_host<T: Copy, const M: u8>(
    alloc: Global,
    state: &mut State<T, M>,
    pid: u32,
    mount: T,
    looked: Looked<'_>,
    flags: u32,
) -> Outcome
    requires caller { IsSoundFor pid state.old }
    requires files { state.old.files.table.last_file + 1 < 2 ^ 64 }
    requires object { IsObjectOf state.old.tree looked.host }
    requires room { HasRoomLeft state.old.tree }
    ensures performs { (mounts : Mounts T) → mounts.found ≡ Some mount → CarriesOut mounts pid (λ k. open_host k flags (looked_told looked.entry) looked.entry.host) state.old state.new result }
    ensures served { result ≢ WantOfMemory → IsServed state.new }
{
    match looked.host {
        Host::Node(ino) => open_node(alloc, state, pid, mount, ino, looked, flags),
        Host::Proc(ino, at) => {
            if is_process_directory(at) {
                let host = Host::Proc(ino, at);
                open_directory(alloc, state, pid, Place { mount, host }, flags, true)
            } else {
                refused(Errno::ELOOP)
            }
        }
    }
}

/// Opens what is there: EEXIST with O_CREAT and O_EXCL; ELOOP of a link; ENOTDIR of what is no directory with O_DIRECTORY; EISDIR of
/// a directory to be written, made or cut; EACCES; EMFILE.
pub(crate) fn open_found<T: Copy, const M: u8>(
    alloc: Global,
    state: &mut State<T, M>,
    pid: u32,
    mount: T,
    looked: Looked<'_>,
    flags: u32,
) -> Outcome
    requires caller { IsSoundFor pid state.old }
    requires files { state.old.files.table.last_file + 1 < 2 ^ 64 }
    requires object { IsObjectOf state.old.tree looked.host }
    requires room { HasRoomLeft state.old.tree }
    ensures performs { (mounts : Mounts T) → mounts.found ≡ Some mount → CarriesOut mounts pid (λ k. open_found k flags (looked_told looked.entry)) state.old state.new result }
    ensures served { result ≢ WantOfMemory → IsServed state.new }
{
    if makes_anew(flags) {
        refused(Errno::EEXIST)
    } else {
        open_host(alloc, state, pid, mount, looked, flags)
    }
}

//! What a call alters, the shape of the tree and the bytes of files, told before it is carried out: of one that answers a number. A write's bytes
//! aren't told here, but as they are written.
ghost use Rattle.std.specs.Prelude.{◌≡◌, ℕ, ℤ, Bool, false, List};
ghost use Rattle.std.specs.Option.{option_map_or};
ghost use Rattle.law_allowed.specs.kr_calls.declared.request.Request.TheVariants as call;
ghost use Rattle.law_allowed.specs.kr_tree.declared.place.Host.{Host as AnyHost};
ghost use Rattle.law_allowed.specs.kr_view.View.{Row};
ghost use Rattle.law_allowed.specs.kr_model.FileRows.{inode_of_open};
ghost use Rattle.law_allowed.specs.kr_model.Known.{known};
ghost use Rattle.law_allowed.specs.kr_model.State.{image_layout};
ghost use Rattle.law_allowed.specs.kr_model.Walks.{looks_up, told};
ghost use Rattle.kr_rows.specs.kr_ops.Meaning.{meaning};
ghost use Rattle.kr_rows.specs.kr_ops.Sound.{IsSound, IsSoundFor};
ghost use Rattle.kr_transfer.specs.kr_seen.Numbered.{state_numbered};
ghost use Rattle.law_steady.specs.Ahead.{bytes_ahead, cuts_file, is_answered, makes_file, mode_alters, of_open, of_place, owner_alters, owner_here, seen_looked, seen_moved, seen_opening, shape_ahead, size_alters, unless_empty};
ghost use Rattle.kr_perform.specs.Altering.{IsAhead, where_answered};
ghost use Rattle.kr_perform.specs.Operating.{placed_targets};

use crate::changes::{
    cuts_file, makes_file, mode_alters, owner_alters, rename_alters, size_alters,
};
use kr_attributes::found::{is_working_directory, working_directory};
use kr_rows::below::{Host, State, Targets, opened, taken};
use kr_transfer::channel::{channel_of, inode_of};
use law_allowed::below::{Outcome, Places, Request};

/// What a call alters: the shape of the tree, which is all that is reached from the root with its names, kinds, modes, owners, groups and links'
/// texts; and the bytes of files.
#[derive(Clone, Copy)]
pub struct Altered {
    pub shape: bool,
    pub bytes: bool,
}

// ---- what is open

/// The object that is open under a descriptor; `None` where nothing is open, and of a pipe and the console.
fn open_host<T: Copy, const M: u8>(state: &State<T, M>, pid: u32, fd: i32) -> Option<Host>
    requires { IsSound state.now }
    ensures { (test : AnyHost → Bool) → option_map_or test result false ≡ of_open (known image_layout pid (meaning state.now)) fd (of_place test) }
{
    match channel_of(state, pid, fd) {
        Some(channel) => channel.host,
        None => None,
    }
}

/// Whether a mode that what is open gets alters the shape.
fn open_mode_alters<T: Copy, const M: u8>(state: &State<T, M>, pid: u32, fd: i32, mode: u32) -> bool
    requires { IsSound state.now }
    ensures { result ≡ of_open (known image_layout pid (meaning state.now)) fd (of_place (mode_alters state.now.tree mode)) }
{
    match open_host(state, pid, fd) {
        Some(host) => mode_alters(state, host, mode),
        None => false,
    }
}

/// Whether an owner and a group that what is open gets alter the shape.
fn open_owner_alters<T: Copy, const M: u8>(
    state: &State<T, M>,
    pid: u32,
    fd: i32,
    uid: u32,
    gid: u32,
) -> bool
    requires { IsSound state.now }
    ensures { let k = known image_layout pid (meaning state.now) in result ≡ of_open k fd (of_place (owner_alters state.now.tree k uid gid)) }
{
    match open_host(state, pid, fd) {
        Some(host) => owner_alters(state, host, uid, gid),
        None => false,
    }
}

/// Whether a size that what is open gets alters its bytes.
fn open_size_alters<T: Copy, const M: u8>(state: &State<T, M>, pid: u32, fd: i32, size: u64) -> bool
    requires { IsSound state.now }
    ensures { result ≡ of_open (known image_layout pid (meaning state.now)) fd (λ o. size_alters state.now.tree size (inode_of_open o)) }
{
    match channel_of(state, pid, fd) {
        Some(channel) => size_alters(state, inode_of(channel), size),
        None => false,
    }
}

// ---- what a path leads to

/// Whether a mode that what a path leads to gets alters the shape.
fn found_mode_alters<T: Copy, const M: u8>(
    state: &State<T, M>,
    targets: &Targets<T>,
    mode: u32,
) -> bool
    ensures { (n : T → ℕ) (table : List Row) (pid : ℕ) → result ≡ seen_looked (mode_alters state.now.tree mode) (looks_up table pid (state_numbered n (meaning state.now)) (placed_targets n targets.now.first targets.now.second)) }
{
    let Some(target) = &targets.first else {
        return false;
    };
    match target.found {
        Some(place) => mode_alters(state, place.host, mode),
        None => false,
    }
}

/// Whether an owner and a group that what a path leads to gets alter the shape.
fn found_owner_alters<T: Copy, const M: u8>(
    state: &State<T, M>,
    targets: &Targets<T>,
    uid: u32,
    gid: u32,
) -> bool
    ensures { (n : T → ℕ) (table : List Row) (pid : ℕ) → let k = known image_layout pid (meaning state.now) in
        result ≡ seen_looked (owner_alters state.now.tree k uid gid) (looks_up table pid (state_numbered n (meaning state.now)) (placed_targets n targets.now.first targets.now.second)) }
{
    let Some(target) = &targets.first else {
        return false;
    };
    match target.found {
        Some(place) => owner_alters(state, place.host, uid, gid),
        None => false,
    }
}

/// Whether an owner and a group alter the shape that a descriptor's object gets, or the working directory.
fn owner_here_alters<T: Copy, const M: u8>(
    state: &State<T, M>,
    pid: u32,
    dirfd: i32,
    uid: u32,
    gid: u32,
) -> bool
    requires { IsSoundFor pid state.now }
    ensures { result ≡ owner_here state.now.tree (known image_layout pid (meaning state.now)) dirfd uid gid }
{
    if is_working_directory(dirfd) {
        let host = working_directory(state, pid);
        owner_alters(state, host, uid, gid)
    } else {
        open_owner_alters(state, pid, dirfd, uid, gid)
    }
}

/// Whether an fchownat(2) alters the shape.
fn owner_at_alters<T: Copy, const M: u8>(
    state: &State<T, M>,
    pid: u32,
    targets: &Targets<T>,
    dirfd: i32,
    path: &[u8],
    uid: u32,
    gid: u32,
) -> bool
    requires { IsSoundFor pid state.now }
    ensures { (n : T → ℕ) (table : List Row) → let k = known image_layout pid (meaning state.now) in
        result ≡ unless_empty path.now (owner_here state.now.tree k dirfd uid gid) (seen_looked (owner_alters state.now.tree k uid gid) (looks_up table pid (state_numbered n (meaning state.now)) (placed_targets n targets.now.first targets.now.second))) }
{
    if path.is_empty() {
        owner_here_alters(state, pid, dirfd, uid, gid)
    } else {
        found_owner_alters(state, targets, uid, gid)
    }
}

/// Whether a renameat2(2) alters the shape.
fn rename_at_alters<P: Places, const M: u8>(
    places: &P,
    state: &State<P::Mount, M>,
    targets: &Targets<P::Mount>,
) -> bool
    ensures { (pid : ℕ) (olddir newdir : ℤ) (old new : List ℕ) → result ≡ seen_moved state.now.tree (told (P.mounts places.now) pid (state_numbered P.number (meaning state.now)) (call.Renameat2 olddir old newdir new) (placed_targets P.number targets.now.first targets.now.second)) }
{
    let Some(old) = &targets.first else {
        return false;
    };
    match &targets.second {
        Some(new) => {
            let from = taken(places, old);
            let to = taken(places, new);
            rename_alters(state, from, to)
        }
        None => false,
    }
}

/// Whether an openat(2) makes a file.
fn opening_makes<P: Places, const M: u8>(
    places: &P,
    state: &State<P::Mount, M>,
    targets: &Targets<P::Mount>,
    flags: u32,
) -> bool
    ensures { (pid : ℕ) (dirfd : ℤ) (path : List ℕ) (mode : ℕ) → result ≡ seen_opening makes_file (told (P.mounts places.now) pid (state_numbered P.number (meaning state.now)) (call.Openat dirfd path flags mode) (placed_targets P.number targets.now.first targets.now.second)) }
{
    let Some(target) = &targets.first else {
        return false;
    };
    match opened(places, state, target, flags) {
        Some(opening) => makes_file(opening),
        None => false,
    }
}

/// Whether an openat(2) cuts a file that has bytes.
fn opening_cuts<P: Places, const M: u8>(
    places: &P,
    state: &State<P::Mount, M>,
    targets: &Targets<P::Mount>,
    flags: u32,
) -> bool
    ensures { (pid : ℕ) (dirfd : ℤ) (path : List ℕ) (mode : ℕ) → result ≡ seen_opening (cuts_file state.now.tree flags) (told (P.mounts places.now) pid (state_numbered P.number (meaning state.now)) (call.Openat dirfd path flags mode) (placed_targets P.number targets.now.first targets.now.second)) }
{
    let Some(target) = &targets.first else {
        return false;
    };
    match opened(places, state, target, flags) {
        Some(opening) => cuts_file(state, opening, flags),
        None => false,
    }
}

// ---- calls

/// Whether a call alters the shape of the tree, if it answers a number.
fn alters_shape<P: Places, const M: u8>(
    places: &P,
    state: &State<P::Mount, M>,
    pid: u32,
    request: &Request,
    targets: &Targets<P::Mount>,
) -> bool
    requires { IsSoundFor pid state.now }
    ensures { result ≡ shape_ahead state.now.tree request.now (told (P.mounts places.now) pid (state_numbered P.number (meaning state.now)) request.now (placed_targets P.number targets.now.first targets.now.second)) (known image_layout pid (meaning state.now)) }
{
    match request {
        Request::Mkdirat { .. } => true,
        Request::Symlinkat { .. } => true,
        Request::Linkat { .. } => true,
        Request::Unlinkat { .. } => true,
        Request::Renameat2 { .. } => rename_at_alters(places, state, targets),
        Request::Openat { flags, .. } => opening_makes(places, state, targets, *flags),
        Request::Fchmod { fd, mode } => open_mode_alters(state, pid, *fd, *mode),
        Request::Fchmodat { mode, .. } => found_mode_alters(state, targets, *mode),
        Request::Fchown { fd, uid, gid } => open_owner_alters(state, pid, *fd, *uid, *gid),
        Request::Fchownat {
            dirfd,
            path,
            uid,
            gid,
            ..
        } => owner_at_alters(state, pid, targets, *dirfd, path.as_slice(), *uid, *gid),
        _ => false,
    }
}

/// Whether a call that isn't a write alters the bytes of a file, if it answers a number.
fn alters_bytes<P: Places, const M: u8>(
    places: &P,
    state: &State<P::Mount, M>,
    pid: u32,
    request: &Request,
    targets: &Targets<P::Mount>,
) -> bool
    requires { IsSound state.now }
    ensures { result ≡ bytes_ahead state.now.tree request.now (told (P.mounts places.now) pid (state_numbered P.number (meaning state.now)) request.now (placed_targets P.number targets.now.first targets.now.second)) (known image_layout pid (meaning state.now)) }
{
    match request {
        Request::Openat { flags, .. } => opening_cuts(places, state, targets, *flags),
        Request::Ftruncate { fd, len } => open_size_alters(state, pid, *fd, *len),
        _ => false,
    }
}

/// What a call alters, if it answers a number.
pub(crate) fn foretell<P: Places, const M: u8>(
    places: &P,
    state: &State<P::Mount, M>,
    pid: u32,
    request: &Request,
    targets: &Targets<P::Mount>,
) -> Altered
    requires { IsSoundFor pid state.now }
    ensures { IsAhead P.number (P.mounts places.now) pid request.now targets.now.first targets.now.second state.now result }
{
    Altered {
        shape: alters_shape(places, state, pid, request, targets),
        bytes: alters_bytes(places, state, pid, request, targets),
    }
}

/// Whether a number was answered, and no error.
fn is_answered(outcome: Outcome) -> bool
    ensures { result ≡ is_answered outcome }
{
    match outcome {
        Outcome::Answer(value) => 0 <= value,
        Outcome::Wait | Outcome::Ended | Outcome::NoMemory => false,
    }
}

/// What a call altered of which this was told ahead: nothing where it answered no number.
pub(crate) fn where_answered(outcome: Outcome, ahead: Altered) -> Altered
    ensures { result ≡ where_answered outcome ahead }
{
    let answered = is_answered(outcome);
    Altered {
        shape: answered && ahead.shape,
        bytes: answered && ahead.bytes,
    }
}

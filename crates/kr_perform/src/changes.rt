//! Whether a change alters the shape of the tree or the bytes of a file, told on the tree before it.
ghost use Rattle.std.specs.Prelude.{◌≡◌, ◌==◌, ◌&&◌, ◌%◌, not, ℕ, false, length, nat_lt, if◌then◌else◌};
ghost use Rattle.std.specs.Option.{option_map_or};
ghost use Rattle.law_allowed.specs.kr_model.AttributeRows.{or_old, unchanged};
ghost use Rattle.law_allowed.specs.kr_model.Change.{SetMode};
ghost use Rattle.law_allowed.specs.kr_model.Known.{known, known_node};
ghost use Rattle.law_allowed.specs.kr_model.State.{image_layout};
ghost use Rattle.kr_rows.specs.kr_ops.Meaning.{meaning};
ghost use Rattle.kr_transfer.specs.kr_seen.Told.{opening_told, taken_told};
ghost use Rattle.law_steady.specs.Ahead.{cuts_file, host_is_cut, makes_file, mode_alters, move_alters, node_owner_alters, owner_alters, rename_alters, size_alters};
ghost use Rattle.law_steady.specs.Bytes.{bytes_at};
ghost use Rattle.law_steady.specs.Exact.{alters_shape_of, are_one};

use kr_attributes::owners::{UNCHANGED, or_old};
use kr_names::flags::truncates;
use kr_names::moving::is_one;
use kr_rows::below::{Host, Ino, MODES, Meta, Opening, State, Taken};

// ---- modes and owners

/// Whether a mode is another one than that of what has a name.
fn is_other_mode(meta: Meta, mode: u32) -> bool
    ensures { result ≡ (nat_lt 0 meta.names && not (meta.mode == mode % 4096)) }
{
    0 < meta.names && u32::from(meta.mode) != mode % MODES
}

/// Whether a mode that an inode gets alters the shape: the inode has a name and another mode.
fn node_mode_alters<T: Copy, const M: u8>(state: &State<T, M>, ino: Ino, mode: u32) -> bool
    ensures { result ≡ alters_shape_of state.now.tree (SetMode ino (mode % 4096)) }
{
    match state.tree.meta(ino) {
        Some(meta) => is_other_mode(meta, mode),
        None => false,
    }
}

/// Whether a mode that an object gets alters the shape.
pub(crate) fn mode_alters<T: Copy, const M: u8>(state: &State<T, M>, host: Host, mode: u32) -> bool
    ensures { result ≡ mode_alters state.now.tree mode host }
{
    match host {
        Host::Node(ino) => node_mode_alters(state, ino, mode),
        Host::Proc(_, _) => false,
    }
}

/// Whether what has a name gets other numbers of its owner and its group; all ones leave one as it is.
fn is_other_owner(meta: Meta, uid: u32, gid: u32) -> bool
    ensures { result ≡ (if uid == unchanged && gid == unchanged then false else nat_lt 0 meta.names && not ((meta.uid == or_old uid meta.uid) && (meta.gid == or_old gid meta.gid))) }
{
    let new_uid = or_old(uid, meta.uid);
    let new_gid = or_old(gid, meta.gid);
    if uid == UNCHANGED && gid == UNCHANGED {
        false
    } else {
        0 < meta.names && !(meta.uid == new_uid && meta.gid == new_gid)
    }
}

/// Whether an owner and a group that an inode gets alter the shape.
fn node_owner_alters<T: Copy, const M: u8>(
    state: &State<T, M>,
    ino: Ino,
    uid: u32,
    gid: u32,
) -> bool
    ensures { (pid : ℕ) → result ≡ option_map_or (node_owner_alters state.now.tree uid gid ino) (known_node (known image_layout pid (meaning state.now)) ino) false }
{
    match state.tree.meta(ino) {
        Some(meta) => is_other_owner(meta, uid, gid),
        None => false,
    }
}

/// Whether an owner and a group that an object gets alter the shape.
pub(crate) fn owner_alters<T: Copy, const M: u8>(
    state: &State<T, M>,
    host: Host,
    uid: u32,
    gid: u32,
) -> bool
    ensures { (pid : ℕ) → result ≡ owner_alters state.now.tree (known image_layout pid (meaning state.now)) uid gid host }
{
    match host {
        Host::Node(ino) => node_owner_alters(state, ino, uid, gid),
        Host::Proc(_, _) => false,
    }
}

// ---- names that move

/// Whether both numbers are there and are one.
fn are_one(one: Option<Ino>, other: Option<Ino>) -> bool
    ensures { result ≡ are_one one other }
{
    match (one, other) {
        (Some(one), Some(other)) => one == other,
        _ => false,
    }
}

/// Whether a name that is moved alters the shape: what it names isn't there under the new name already.
fn move_alters<T: Copy, const M: u8>(
    state: &State<T, M>,
    dir: Host,
    name: &[u8],
    to: Host,
    new: &[u8],
) -> bool
    ensures { result ≡ move_alters state.now.tree dir name.now to new.now }
{
    match (dir, to) {
        (Host::Node(dir), Host::Node(to)) => {
            !are_one(state.tree.entry(dir, name), state.tree.entry(to, new))
        }
        _ => false,
    }
}

/// Whether an entry that is moved alters the shape. Two names of one object are left as they are.
pub(crate) fn rename_alters<T: Copy, const M: u8>(
    state: &State<T, M>,
    old: Taken<'_>,
    new: Taken<'_>,
) -> bool
    ensures { result ≡ rename_alters state.now.tree (taken_told old.entry) (taken_told new.entry) }
{
    match (old, new) {
        (Taken::Takes(old), Taken::Takes(new)) => match old.found {
            Some(found) => {
                if is_one(found, new.found) {
                    false
                } else {
                    move_alters(state, old.dir, old.name, new.dir, new.name)
                }
            }
            None => false,
        },
        _ => false,
    }
}

// ---- files

/// How many bytes an inode has; none where it isn't there.
fn size_of<T: Copy, const M: u8>(state: &State<T, M>, ino: Ino) -> u64
    ensures { result ≡ length (bytes_at state.now.tree ino) }
{
    match state.tree.meta(ino) {
        Some(meta) => meta.size,
        None => 0,
    }
}

/// Whether a size that a file gets alters its bytes: it has another one.
pub(crate) fn size_alters<T: Copy, const M: u8>(state: &State<T, M>, ino: Ino, size: u64) -> bool
    ensures { result ≡ size_alters state.now.tree size ino }
{
    size_of(state, ino) != size
}

/// Whether an object that is cut to 0 loses bytes.
fn host_is_cut<T: Copy, const M: u8>(state: &State<T, M>, host: Host) -> bool
    ensures { result ≡ host_is_cut state.now.tree host }
{
    match host {
        Host::Node(ino) => size_alters(state, ino, 0),
        Host::Proc(_, _) => false,
    }
}

/// Whether an opening makes a file.
pub(crate) fn makes_file(opening: Opening<'_>) -> bool
    ensures { result ≡ makes_file (opening_told opening.entry) }
{
    match opening {
        Opening::New { .. } => true,
        Opening::NoName(_) | Opening::Slashed | Opening::Found(_) => false,
    }
}

/// Whether an opening with these flags cuts a file that has bytes.
pub(crate) fn cuts_file<T: Copy, const M: u8>(
    state: &State<T, M>,
    opening: Opening<'_>,
    flags: u32,
) -> bool
    ensures { result ≡ cuts_file state.now.tree flags (opening_told opening.entry) }
{
    match opening {
        Opening::Found(looked) => truncates(flags) && host_is_cut(state, looked.host),
        Opening::NoName(_) | Opening::Slashed | Opening::New { .. } => false,
    }
}

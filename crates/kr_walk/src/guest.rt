//! Guest names of inodes.
ghost use Rattle.std.specs.Prelude.{◌≡◌, true, ℕ, List, ◌≤◌, length, drop, nat_eq, Some, IfOk, IfSome};
ghost use Rattle.std.specs.Option.{option_map};
ghost use Rattle.kr_view.specs.kr_tree.pr_base.Paths.{below_root, text_of};
ghost use Rattle.kr_view.specs.kr_tree.Names.{host_name};
ghost use Rattle.kr_view.specs.View.{Row, IsTable, row, is_there};
ghost use Rattle.kr_view.specs.Names.{names_down, guest_directory, is_file_source, guest_source, guest_below, guest_node};

use crate::name::{below_the_root, directory_name, entered, last_slash};
use kr_view::Places;
use kr_view::below::kr_tree::laws::{directories_have_host_names, trees_are_kept};
use kr_view::below::kr_tree::{Host, Ino, Tree};
use kr_view::below::pr_base::{Bytes, NoMemory};
use std::alloc::Global;

/// The guest name of an inode that is seen in a mount, as getcwd(2) and the links of the process directory
/// tell it: the location of the mount, and the names from its source down. What is no directory has the names
/// of the entry that it remembers; but if it is the source of the mount it is called by the location,
/// whatever the name of that entry is now. `None` where there is no such name: of a directory that was removed
/// or isn't below the source, and of a file that remembers no entry.
pub fn guest_name<P: Places>(
    alloc: Global,
    places: &P,
    tree: &Tree,
    mount: P::Mount,
    ino: Ino,
    remembered: Option<(Ino, &[u8])>,
) -> Result<Option<Bytes>, NoMemory>
    requires table { IsTable (P.mounts places.now) }
    requires mounted { is_there (row (P.mounts places.now) (P.number mount)) ≡ true }
    ensures { let names = guest_node tree.now (row (P.mounts places.now) (P.number mount)) ino (option_map (λ e. (e.0, e.1.now)) remembered.entry) in
        IfOk result (λ name. name ≡ option_map text_of names) }
{
    if is_file_source(places, mount, ino) {
        return guest_source(alloc, places, mount, remembered);
    }
    match guest_below(alloc, places, tree, mount, ino, remembered)? {
        Some(bytes) => Ok(Some(from_the_root(bytes)?)),
        None => Ok(None),
    }
}

/// Whether an inode is the source of a mount.
fn is_source<P: Places>(places: &P, mount: P::Mount, ino: Ino) -> bool
    requires { IsTable (P.mounts places.now) }
    ensures { (r : Row) → row (P.mounts places.now) (P.number mount) ≡ Some r → result ≡ nat_eq r.source ino }
{
    let root = places.root();
    if places.same(mount, root.mount) {
        root.host == Host::Node(ino)
    } else {
        places.up(mount, ino).is_some()
    }
}

/// Whether an inode is the source of a mount and no directory.
fn is_file_source<P: Places>(places: &P, mount: P::Mount, ino: Ino) -> bool
    requires table { IsTable (P.mounts places.now) }
    ensures { result ≡ is_file_source (row (P.mounts places.now) (P.number mount)) ino }
{
    places.source(mount).is_some() && is_source(places, mount, ino)
}

/// The guest name of the source of a mount that is no directory.
fn guest_source<P: Places>(
    alloc: Global,
    places: &P,
    mount: P::Mount,
    remembered: Option<(Ino, &[u8])>,
) -> Result<Option<Bytes>, NoMemory>
    requires mounted { is_there (row (P.mounts places.now) (P.number mount)) ≡ true }
    ensures { let names = guest_source (row (P.mounts places.now) (P.number mount)) (option_map (λ e. (e.0, e.1.now)) remembered.entry) in
        IfOk result (λ name. name ≡ option_map text_of names) }
{
    match remembered {
        Some(_) => Ok(Some(Bytes::copy(alloc, places.location(mount))?)),
        None => Ok(None),
    }
}

/// The guest name of an inode below the source of a mount, as its bytes below the root.
fn guest_below<P: Places>(
    alloc: Global,
    places: &P,
    tree: &Tree,
    mount: P::Mount,
    ino: Ino,
    remembered: Option<(Ino, &[u8])>,
) -> Result<Option<Bytes>, NoMemory>
    requires table { IsTable (P.mounts places.now) }
    requires mounted { is_there (row (P.mounts places.now) (P.number mount)) ≡ true }
    ensures { let names = guest_below tree.now (row (P.mounts places.now) (P.number mount)) ino (option_map (λ e. (e.0, e.1.now)) remembered.entry) in
        IfOk result (λ name. name ≡ option_map below_root names) }
{
    if tree.is_directory(ino) {
        return guest_directory(alloc, places, tree, mount, ino);
    }
    match remembered {
        Some((dir, name)) => entered(guest_directory(alloc, places, tree, mount, dir)?, name),
        None => Ok(None),
    }
}

/// The guest name of a directory, as its bytes below the root.
fn guest_directory<P: Places>(
    alloc: Global,
    places: &P,
    tree: &Tree,
    mount: P::Mount,
    dir: Ino,
) -> Result<Option<Bytes>, NoMemory>
    requires table { IsTable (P.mounts places.now) }
    requires mounted { is_there (row (P.mounts places.now) (P.number mount)) ≡ true }
    ensures { IfOk result (λ name. name ≡ option_map below_root (guest_directory tree.now (row (P.mounts places.now) (P.number mount)) dir)) }
{
    let Some(name) = directory_name(tree, dir)? else {
        return Ok(None);
    };
    let Some(end) = source_end(places, tree, mount, dir, name.as_slice()) else {
        return Ok(None);
    };
    let mut guest = below_the_root(Bytes::copy(alloc, places.location(mount))?);
    guest.append(&name.as_slice()[end..])?;
    Ok(Some(guest))
}

/// How many bytes of a directory's host name are that of the source of a mount, where the directory stands
/// at or below that.
fn source_end<P: Places>(
    places: &P,
    tree: &Tree,
    mount: P::Mount,
    dir: Ino,
    name: &[u8],
) -> Option<usize>
    requires table { IsTable (P.mounts places.now) }
    requires named { Some name.now ≡ option_map below_root (host_name tree.now dir) }
    ensures end { IfSome result (λ end. end ≤ length name.now) }
    ensures below { (r : Row) → row (P.mounts places.now) (P.number mount) ≡ Some r →
        option_map (λ end. drop end name.now) result ≡ option_map below_root (names_down tree.now r.source dir) }
{
    trees_are_kept(tree);
    directories_have_host_names(tree);
    let mut at = dir;
    let mut end = name.len();
    while !is_source(places, mount, at) {
        if end == 0 {
            return None;
        }
        end = last_slash(&name[..end]);
        at = tree.above(at)?;
    }
    Some(end)
}

/// A text from its bytes below the root.
fn from_the_root(below: Bytes) -> Result<Bytes, NoMemory>
    ensures { IfOk result (λ text. (names : List (List ℕ)) → below ≡ below_root names → text ≡ text_of names) }
{
    let mut text = below;
    if text.is_empty() {
        text.append(b"/")?;
    }
    Ok(text)
}

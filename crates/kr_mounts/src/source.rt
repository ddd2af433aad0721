//! The sources of bindings, found on the host.
ghost use Rattle.std.specs.Prelude.{◌≡◌, ℕ, false, Some, IfOk, IfSome};
ghost use Rattle.std.specs.Option.{option_map, option_map_or};
ghost use Rattle.kr_walk.specs.kr_tree.declared.place.Host.TheVariants.{Node};
ghost use Rattle.kr_walk.specs.kr_tree.Tree.{above, body_is, is_directory};
ghost use Rattle.pt_bind.specs.pr_base.Paths.{IsPart};
ghost use Rattle.kr_walk.specs.kr_tree.Names.{host_name};
ghost use Rattle.pt_bind.specs.Binding.{IsWritten, names_of};
ghost use Rattle.kr_mounts.specs.Found.{source_told};
ghost use Rattle.kr_mounts.specs.Sources.{source_at, source_by, source_walked, directory_source, entry_source};

use crate::text::entry_text;
use kr_walk::below::{
    Host, HostMount, Ino, NoProcs, Places, Plain, Reach, Target, Tree, User, WalkFault,
    directories_have_host_names, trees_are_kept,
};
use kr_walk::resolve;
use pt_bind::below::pr_base::{Bytes, NoMemory, WalkMode, is_walked};
use std::alloc::Global;

/// A source as it was found: its inode, whether it is a directory, the directory in which it stands, which of the
/// host's `/` isn't read, and its host text.
#[derive(Drop)]
pub(crate) struct Found {
    pub(crate) inode: Ino,
    pub(crate) is_dir: bool,
    pub(crate) dir: Ino,
    pub(crate) text: Bytes,
}

/// The source at a host path, with links followed, as the user finds it before a process lives. There is none at an empty path,
/// nor at one that is too long.
pub(crate) fn find_source(
    alloc: Global,
    tree: &Tree,
    user: User,
    path: &[u8],
) -> Result<Option<Found>, NoMemory>
    ensures source { IfOk result (λ found. option_map source_told found ≡ source_by tree.now user path.now) }
    ensures written { IfOk result (λ found. IfSome found (λ f. IsWritten f.text)) }
{
    if !is_walked(path) {
        return Ok(None);
    }
    source_walked(alloc, tree, user, path)
}

/// The source to which the walk of a host path leads.
fn source_walked(
    alloc: Global,
    tree: &Tree,
    user: User,
    path: &[u8],
) -> Result<Option<Found>, NoMemory>
    ensures source { IfOk result (λ found. option_map source_told found ≡ source_walked tree.now user path.now) }
    ensures written { IfOk result (λ found. IfSome found (λ f. IsWritten f.text)) }
{
    trees_are_kept(tree);
    let places = Plain::new();
    let procs: NoProcs<HostMount> = NoProcs::new();
    let mut reach = Reach {
        longest: 0,
        met_proc: false,
    };
    match resolve(
        alloc,
        &places,
        &procs,
        tree,
        user,
        0,
        places.root(),
        path,
        WalkMode::Look,
        &mut reach,
    ) {
        Ok(target) => source_at(alloc, tree, &target),
        Err(WalkFault::Err(_errno)) => Ok(None),
        Err(WalkFault::NoMemory) => Err(NoMemory),
    }
}

/// What a walk found.
fn source_at(
    alloc: Global,
    tree: &Tree,
    target: &Target<HostMount>,
) -> Result<Option<Found>, NoMemory>
    requires { (i : ℕ) → option_map (λ p. p.host) target.now.found ≡ Some (Node i) → body_is is_directory tree.now i ≡ false → IsPart target.now.name }
    ensures source { IfOk result (λ found. option_map source_told found ≡ source_at tree.now target.now.dir.host target.now.name (option_map (λ p. p.host) target.now.found)) }
    ensures written { IfOk result (λ found. IfSome found (λ f. IsWritten f.text)) }
{
    match target.found {
        Some(place) => source_of(
            alloc,
            tree,
            target.dir.host,
            target.name.as_slice(),
            place.host,
        ),
        None => Ok(None),
    }
}

/// An object as a source, by the directory and the name under which it was found.
fn source_of(
    alloc: Global,
    tree: &Tree,
    dir: Host,
    name: &[u8],
    found: Host,
) -> Result<Option<Found>, NoMemory>
    requires { (i : ℕ) → found ≡ Node i → body_is is_directory tree.now i ≡ false → IsPart name.now }
    ensures source { IfOk result (λ s. option_map source_told s ≡ source_at tree.now dir name.now (Some found)) }
    ensures written { IfOk result (λ s. IfSome s (λ f. IsWritten f.text)) }
{
    match found {
        Host::Node(inode) => {
            if tree.is_directory(inode) {
                directory_source(tree, inode)
            } else {
                entry_source(alloc, tree, dir, name, inode)
            }
        }
        Host::Proc(_inode, _at) => Ok(None),
    }
}

/// A directory as a source, by the text that the tree gives it.
fn directory_source(tree: &Tree, inode: Ino) -> Result<Option<Found>, NoMemory>
    ensures source { IfOk result (λ found. option_map source_told found ≡ directory_source tree.now inode) }
    ensures written { IfOk result (λ found. IfSome found (λ f. IsWritten f.text)) }
{
    let text = directory_text(tree, inode)?;
    let dir = directory_above(tree, inode);
    match text {
        Some(text) => Ok(Some(Found {
            inode,
            is_dir: true,
            dir,
            text,
        })),
        None => Ok(None),
    }
}

/// The directory in which another one stands; 0 where it stands in none.
fn directory_above(tree: &Tree, inode: Ino) -> Ino
    ensures { result ≡ option_map_or (λ up. up) (above tree.now inode) 0 }
{
    match tree.above(inode) {
        Some(up) => up,
        None => 0,
    }
}

/// Another object as a source, by the name under which it was found.
fn entry_source(
    alloc: Global,
    tree: &Tree,
    host: Host,
    name: &[u8],
    inode: Ino,
) -> Result<Option<Found>, NoMemory>
    requires { IsPart name.now }
    ensures source { IfOk result (λ found. option_map source_told found ≡ entry_source tree.now host name.now inode) }
    ensures written { IfOk result (λ found. IfSome found (λ f. IsWritten f.text)) }
{
    match host {
        Host::Node(dir) => entry_in(alloc, tree, dir, name, inode),
        Host::Proc(_inode, _at) => Ok(None),
    }
}

/// An entry of a directory as a source.
fn entry_in(
    alloc: Global,
    tree: &Tree,
    dir: Ino,
    name: &[u8],
    inode: Ino,
) -> Result<Option<Found>, NoMemory>
    requires { IsPart name.now }
    ensures source { IfOk result (λ found. option_map source_told found ≡ entry_source tree.now (Node dir) name.now inode) }
    ensures written { IfOk result (λ found. IfSome found (λ f. IsWritten f.text)) }
{
    let above = directory_text(tree, dir)?;
    match above {
        Some(above) => {
            let text = entry_text(alloc, above.as_slice(), name)?;
            Ok(Some(Found {
                inode,
                is_dir: false,
                dir,
                text,
            }))
        }
        None => Ok(None),
    }
}

/// The host text of a directory, if it has one.
pub(crate) fn directory_text(tree: &Tree, dir: Ino) -> Result<Option<Bytes>, NoMemory>
    ensures names { IfOk result (λ text. option_map names_of text ≡ host_name tree.now dir) }
    ensures written { IfOk result (λ text. IfSome text IsWritten) }
{
    directories_have_host_names(tree);
    let text = tree.name_of(dir)?;
    Ok(text)
}

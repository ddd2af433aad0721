//! Bindings are settled, in four passes.
ghost use Rattle.std.specs.Prelude.{◌≡◌, ◌++◌, ◌∷◌, [], map, IfOk, OnOk};
ghost use Rattle.std.specs.List.{All};
ghost use Rattle.pt_bind.specs.pr_base.Paths.{IsPart};
ghost use Rattle.kr_walk.specs.kr_tree.Tree.{body_is, is_listed};
ghost use Rattle.pt_bind.specs.Binding.{AreBounds, IsWritten, names_of};
ghost use Rattle.kr_mounts.specs.Bounds.{AreNumbered, HasOneMore, IsSpelled};
ghost use Rattle.kr_mounts.specs.Found.{HasTexts, located_told, source_told};
ghost use Rattle.kr_mounts.specs.Growth.{IsGrown};
ghost use Rattle.kr_mounts.specs.MountTable.{located as located_of, located_all, locations, point_row, point_text as text_of_point, points, root_row, settling, sourced as source_told_of, sources, told as refusal_told};
ghost use Rattle.kr_mounts.specs.Passes.{HasSource, IsPlaced, IsSettled, IsTold, dir_under, fault_told, sourced_told, standing};
ghost use Rattle.kr_mounts.specs.Sources.{as_root, root_source_by};
ghost use Rattle.kr_mounts.specs.Stored.{point_told, row_of_mount, table_of};
ghost use Rattle.kr_mounts.specs.Texts.{last_name as last_of};
ghost use Rattle.kr_mounts.specs.Ways.{HasNumbers};

use crate::fault::{BindFault, BindWhy};
use crate::location::{Locating, Stop};
use crate::mount::{Mount, MountPoint};
use crate::mounted::Mounted;
use crate::order::{Located, in_order};
use crate::point::{Wanted, Way};
use crate::settled::Settled;
use crate::source::{Found, directory_text, find_source};
use crate::text::{entry_text, last_name};
use kr_walk::below::{Ino, Kind, Tree, User};
use pt_bind::below::pr_base::{Bind, Bound, Bytes, NoMemory};
use std::alloc::Global;

/// A binding with its source.
#[derive(Drop)]
struct Sourced<'a> {
    bind: &'a Bind,
    source: Found,
}

/// The root's source, and the bindings with their sources and locations.
#[derive(Drop)]
struct Bindings {
    root: Found,
    located: Vec<Located>,
}

/// Settles bindings over a tree, as `-r` and `-b` ask for them: `root` is the host path of the guest's root, and the
/// k-th binding, counted from 1, has index k. The first binding that is refused is told by its index, the root's is 0.
/// Missing names on the way of locations are made in the tree, directories of mode 0755 and files of mode 0644 of the
/// user; nothing else of the tree changes. After a refusal it may only be dropped. Where bindings have their numbers as
/// indices, the texts of what is settled are what a tracer's table needs.
pub fn settle(
    alloc: Global,
    tree: &mut Tree,
    user: User,
    root: &[u8],
    binds: &[Bind],
) -> Result<Settled, BindFault>
    requires { HasNumbers tree.old }
    ensures settled { IsSettled (settling tree.old user root.now binds.now) tree.new result }
    ensures bounds { AreNumbered binds.now → IfOk result (λ s. AreBounds (map (λ m. m.text) s)) }
    ensures grown { IsGrown user tree.old tree.new }
{
    let Bindings { root, located } = locate_all(alloc, tree, user, root, binds)?;
    let ordered = in_order(alloc, located)?;
    let mounted = stand(alloc, tree, user, root, ordered)?;
    let mounts = mounted.into_mounts();
    let settled = Settled::of(alloc, mounts)?;
    Ok(settled)
}

/// The first three passes: the sources, and where bindings are located.
fn locate_all(
    alloc: Global,
    tree: &Tree,
    user: User,
    root: &[u8],
    binds: &[Bind],
) -> Result<Bindings, BindFault>
    ensures { IsTold (λ b. (root_row (source_told b.root), map located_told b.located.items)) (λ b. IsWritten b.root.text × All HasTexts b.located.items) (located_all tree.now user root.now binds.now) result }
{
    let root = find_root(alloc, tree, user, root)?;
    let sourced = find_sources(alloc, tree, user, binds)?;
    let located = locate_sources(alloc, tree, user, root.inode, sourced)?;
    Ok(Bindings { root, located })
}

/// The root's source, which must be a directory proper.
fn find_root(alloc: Global, tree: &Tree, user: User, path: &[u8]) -> Result<Found, BindFault>
    ensures { IsTold source_told (λ f. IsWritten f.text) (refusal_told 0 (root_source_by tree.now user path.now)) result }
{
    let source = find_source(alloc, tree, user, path)?;
    match source {
        Some(found) => as_root(tree, found),
        None => Err(refused(0, BindWhy::NoSource)),
    }
}

/// A source as the root's.
fn as_root(tree: &Tree, found: Found) -> Result<Found, BindFault>
    requires { IsWritten found.text }
    ensures { IsTold source_told (λ f. IsWritten f.text) (refusal_told 0 (as_root tree.now (source_told found))) result }
{
    if is_listed(tree, found.inode) {
        Ok(found)
    } else {
        Err(refused(0, BindWhy::RootNotDir))
    }
}

/// Whether an inode is a directory proper.
fn is_listed(tree: &Tree, inode: Ino) -> bool
    ensures { result ≡ body_is is_listed tree.now inode }
{
    match tree.kind(inode) {
        Some(Kind::Dir) => true,
        Some(Kind::File) => false,
        Some(Kind::Link) => false,
        Some(Kind::Proc) => false,
        None => false,
    }
}

/// The bindings with their sources, in option order.
fn find_sources<'a>(
    alloc: Global,
    tree: &Tree,
    user: User,
    binds: &'a [Bind],
) -> Result<Vec<Sourced<'a>>, BindFault>
    ensures { IsTold (λ v. map sourced_told v.items) (λ v. All HasSource v.items) (sources tree.now user binds.now) result }
{
    let mut sourced = Vec::new(alloc);
    for bind in binds {
        let one = source_of(alloc, tree, user, bind)?;
        add_source(&mut sourced, one)?;
    }
    Ok(sourced)
}

/// A binding with its source.
fn source_of<'a>(
    alloc: Global,
    tree: &Tree,
    user: User,
    bind: &'a Bind,
) -> Result<Sourced<'a>, BindFault>
    ensures { IsTold sourced_told HasSource (source_told_of tree.now user bind.now) result }
{
    let source = find_source(alloc, tree, user, bind.host.as_slice())?;
    match source {
        Some(source) => Ok(Sourced { bind, source }),
        None => Err(refused(bind.index, BindWhy::NoSource)),
    }
}

/// Adds a binding at the end.
fn add_source<'a>(sourced: &mut Vec<Sourced<'a>>, one: Sourced<'a>) -> Result<(), NoMemory>
    ensures { OnOk result (sourced.new.items ≡ sourced.old.items ++ one.entry ∷ []) }
{
    sourced.push(one)?;
    Ok(())
}

/// The bindings with their locations, in option order.
fn locate_sources(
    alloc: Global,
    tree: &Tree,
    user: User,
    root: Ino,
    sourced: Vec<Sourced<'_>>,
) -> Result<Vec<Located>, BindFault>
    requires { All HasSource sourced.items }
    ensures { IsTold (λ v. map located_told v.items) (λ v. All HasTexts v.items) (locations tree.now user root (map sourced_told sourced.entry.items)) result }
{
    let mut all = Vec::new(alloc);
    for one in sourced {
        let one = locate(alloc, tree, user, root, one)?;
        add(&mut all, one)?;
    }
    Ok(all)
}

/// A binding with its location.
fn locate(
    alloc: Global,
    tree: &Tree,
    user: User,
    root: Ino,
    one: Sourced<'_>,
) -> Result<Located, BindFault>
    requires { HasSource one }
    ensures { IsTold located_told HasTexts (located_of tree.now user root (sourced_told one.entry)) result }
{
    let Sourced { bind, source } = one;
    let locating = Locating {
        alloc,
        tree,
        user,
        root,
        keep: bind.keep,
    };
    match locating.locate(bind.guest.as_slice()) {
        Ok(location) => Ok(Located {
            index: bind.index,
            keep: bind.keep,
            source,
            location,
        }),
        Err(stop) => Err(fault_of(bind.index, stop)),
    }
}

/// Adds a binding at the end.
fn add(all: &mut Vec<Located>, one: Located) -> Result<(), NoMemory>
    ensures { OnOk result (all.new.items ≡ all.old.items ++ one ∷ []) }
{
    all.push(one)?;
    Ok(())
}

/// The last pass: a mount for the root and for each binding, each through those before it.
fn stand(
    alloc: Global,
    tree: &mut Tree,
    user: User,
    root: Found,
    ordered: Vec<Located>,
) -> Result<Mounted, BindFault>
    requires numbers { HasNumbers tree.old }
    requires root { IsWritten root.text }
    requires texts { All HasTexts ordered.items }
    ensures settled { IsSettled (points user (map located_told ordered.items) tree.old (root_row (source_told root) ∷ [])) tree.new result }
    ensures texts { IfOk result (All IsSpelled) }
    ensures grown { IsGrown user tree.old tree.new }
{
    let root = root_mount(alloc, root)?;
    let mut mounted = Mounted::empty(alloc).with(root)?;
    for one in ordered {
        mounted = place(alloc, tree, user, mounted, one)?;
    }
    Ok(mounted)
}

/// The mounts with one more, which stands where its location leads.
fn place(
    alloc: Global,
    tree: &mut Tree,
    user: User,
    mounted: Mounted,
    one: Located,
) -> Result<Mounted, BindFault>
    requires numbers { HasNumbers tree.old }
    requires texts { HasTexts one }
    ensures placed { IsPlaced (standing user (table_of mounted) (located_told one) tree.old) tree.new result }
    ensures more { IfOk result (HasOneMore mounted) }
    ensures grown { IsGrown user tree.old tree.new }
    ensures numbers { HasNumbers tree.new }
{
    let wanted = Wanted {
        is_dir: one.source.is_dir,
        keep: one.keep,
    };
    let way = Way {
        alloc,
        mounted: &mounted,
        user,
    };
    match way.along(tree, one.location.as_slice(), wanted) {
        Ok(point) => {
            let mount = mount_at(alloc, tree, one, point)?;
            Ok(mounted.with(mount)?)
        }
        Err(stop) => Err(fault_of(one.index, stop)),
    }
}

/// The root's mount.
fn root_mount(alloc: Global, source: Found) -> Result<Mount, NoMemory>
    requires { IsWritten source.text }
    ensures row { IfOk result (λ m. row_of_mount m ≡ root_row (source_told source)) }
    ensures texts { IfOk result IsSpelled }
{
    let Found {
        inode,
        is_dir,
        dir,
        text: source,
    } = source;
    let location = Bytes::copy(alloc, b"/")?;
    let text = Bound {
        index: 0,
        location,
        source,
        point: Bytes::new(alloc),
    };
    mount_of(alloc, text, inode, dir, is_dir, None)
}

/// The mount of a binding at its point.
fn mount_at(alloc: Global, tree: &Tree, one: Located, point: MountPoint) -> Result<Mount, NoMemory>
    requires texts { HasTexts one }
    requires part { IsPart point.name }
    ensures row { IfOk result (λ m. row_of_mount m ≡ point_row tree.now (located_told one) (point_told point)) }
    ensures texts { IfOk result IsSpelled }
{
    let Located {
        index,
        keep: _keep,
        source,
        location,
    } = one;
    let Found {
        inode,
        is_dir,
        dir,
        text: source,
    } = source;
    let point_text = point_text(alloc, tree, &point)?;
    let text = Bound {
        index,
        location,
        source,
        point: point_text,
    };
    mount_of(alloc, text, inode, dir, is_dir, Some(point))
}

/// The host text of a mount point.
fn point_text(alloc: Global, tree: &Tree, point: &MountPoint) -> Result<Bytes, NoMemory>
    requires { IsPart point.now.name }
    ensures names { IfOk result (λ text. names_of text ≡ text_of_point tree.now (point_told point.now)) }
    ensures written { IfOk result IsWritten }
{
    let above = directory_text(tree, point.dir)?;
    match above {
        Some(above) => entry_text(alloc, above.as_slice(), point.name.as_slice()),
        None => entry_text(alloc, b"/", point.name.as_slice()),
    }
}

/// The mount of a source. The host's `/` stands in no directory.
fn mount_of(
    alloc: Global,
    text: Bound,
    source: Ino,
    dir: Ino,
    is_dir: bool,
    point: Option<MountPoint>,
) -> Result<Mount, NoMemory>
    requires { IsWritten text.source }
    ensures { IfOk result (λ m. m ≡ record { text = text; source = source; source_dir = dir_under dir (names_of text.source); source_name = last_of (names_of text.source); is_dir = is_dir; point = point }) }
{
    let source_name = Bytes::copy(alloc, last_name(text.source.as_slice()))?;
    let source_dir = dir_under(dir, text.source.as_slice());
    Ok(Mount {
        text,
        source,
        source_dir,
        source_name,
        is_dir,
        point,
    })
}

/// The directory in which what has a host text stands; none, which is 0, for the host's `/`.
fn dir_under(dir: Ino, text: &[u8]) -> Ino
    requires { IsWritten text.now }
    ensures { result ≡ dir_under dir (names_of text.now) }
{
    if last_name(text).is_empty() { 0 } else { dir }
}

/// A refusal of a binding.
fn refused(index: u32, why: BindWhy) -> BindFault
    ensures { result ≡ BindFault.Bad index why }
{
    BindFault::Bad { index, why }
}

/// Why a binding isn't mounted, with its index.
fn fault_of(index: u32, stop: Stop) -> BindFault
    ensures { result ≡ fault_told index stop }
{
    match stop {
        Stop::Bad(why) => refused(index, why),
        Stop::NoMemory => BindFault::NoMemory,
    }
}

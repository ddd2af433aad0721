//! Holds on the inodes of places.
ghost use Rattle.std.specs.Prelude.{◌≡◌, ◌+◌, ◌<◌, ◌^◌, ℕ, IfSome, IsSome};
ghost use Rattle.std.specs.Option.{option_and_then};
ghost use Rattle.law_lawful.specs.kr_tree.Tree.{inode};
ghost use Rattle.law_lawful.specs.kr_tree.Holds.{holds_at};
ghost use Rattle.law_lawful.specs.kr_files.Descriptors.{meanings};
ghost use Rattle.law_lawful.specs.kr_files.Files.{opened_at, NamesOpenFiles};
ghost use Rattle.law_lawful.specs.kr_model.State.{inode_of as host_inode};
ghost use Rattle.law_lawful.specs.kr_model.Applied.{held_at, held_for, released_at};

use law_lawful::below::{DESCRIPTORS, Descs, Files, Host, Ino, Place, Tree};

/// The inode of an object of the host; what stands in the process directory has that directory's.
pub(crate) fn inode_of(host: Host) -> Ino
    ensures { result ≡ host_inode host }
{
    match host {
        Host::Node(ino) => ino,
        Host::Proc(ino, _) => ino,
    }
}

/// Holds the inode of a place once more, if there is a place.
pub(crate) fn hold<T: Copy>(tree: &mut Tree, place: Option<Place<T>>)
    requires there { IfSome place (λ p. IsSome (inode tree.old (host_inode p.host))) }
    requires fits { IfSome place (λ p. holds_at tree.old (host_inode p.host) + 1 < 2 ^ 32) }
    ensures { tree.new ≡ held_at place tree.old }
{
    if let Some(place) = place {
        tree.hold(inode_of(place.host));
    }
}

/// Takes one hold off the inode of a place, if there is a place.
pub(crate) fn release<T: Copy>(tree: &mut Tree, place: Option<Place<T>>)
    requires { IfSome place (λ p. 0 < holds_at tree.old (host_inode p.host)) }
    ensures { tree.new ≡ released_at place tree.old }
{
    if let Some(place) = place {
        tree.release(inode_of(place.host));
    }
}

/// The place of what is open under a descriptor, `None` where it isn't open or has no place.
pub(crate) fn place_of<T: Copy>(files: &Files<T>, descs: &Descs, fd: u32) -> Option<Place<T>>
    requires { NamesOpenFiles files.now descs.now }
    ensures { result ≡ option_and_then (λ o. o.place) (opened_at files.now descs.now fd) }
{
    match files.get(descs, fd) {
        Some(opened) => opened.place,
        None => None,
    }
}

/// Holds once more what stands at each of a process's descriptors.
pub(crate) fn hold_all<T: Copy>(tree: &mut Tree, files: &Files<T>, descs: &Descs)
    requires names { NamesOpenFiles files.now descs.now }
    requires held { (fd : ℕ) → IfSome (option_and_then (λ o. o.place) (opened_at files.now descs.now fd)) (λ p. 0 < holds_at tree.old (host_inode p.host)) }
    requires fits { (i : ℕ) → holds_at tree.old i + 2048 < 2 ^ 32 }
    ensures { tree.new ≡ held_for (meanings descs.now) files.now.table 1024 tree.old }
{
    for fd in 0..DESCRIPTORS {
        let place = place_of(files, descs, fd);
        hold(tree, place);
    }
}

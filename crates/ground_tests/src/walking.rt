//! Walks over the host's own view, and small trees for them.

use kr_walk::below::{
    Bytes, Errno, Host, HostMount, Ino, Last, Meta, NoMemory, NoProcs, Node, Place, Plain, ROOT,
    Reach, Target, Tree, User, WalkFault, WalkMode,
};
use kr_walk::resolve;
use std::alloc::Global;

const USER: User = User {
    uid: 1000,
    gid: 1000,
};

/// What a walk answered, without the bytes of its name.
#[derive(Clone, Copy, PartialEq)]
pub(crate) enum Seen {
    Refused(Errno),
    /// The directory, how many bytes the name has, the kind, the slash, and what was found.
    At(Ino, usize, Last, bool, Option<Ino>),
    WantsMemory,
}

fn meta(mode: u16) -> Meta {
    Meta {
        mode,
        uid: 1000,
        gid: 1000,
        names: 0,
        size: 0,
    }
}

fn ino(place: Place<HostMount>) -> Ino {
    match place.host {
        Host::Node(ino) | Host::Proc(ino, _) => ino,
    }
}

fn node_at(dir: Ino) -> Place<HostMount> {
    Place {
        mount: HostMount,
        host: Host::Node(dir),
    }
}

/// A walk from a directory, with an empty process directory.
pub(crate) fn walk_from(
    alloc: Global,
    tree: &Tree,
    base: Ino,
    path: &[u8],
    mode: WalkMode,
    reach: &mut Reach,
) -> Seen {
    told(resolve(
        alloc,
        &Plain::new(),
        &NoProcs::new(),
        tree,
        USER,
        2,
        node_at(base),
        path,
        mode,
        reach,
    ))
}

/// An answer, without the bytes of its name.
fn told(answer: Result<Target<HostMount>, WalkFault>) -> Seen {
    match answer {
        Ok(target) => {
            let found = match target.found {
                Some(place) => Some(ino(place)),
                None => None,
            };
            Seen::At(
                ino(target.dir),
                target.name.len(),
                target.last,
                target.slash,
                found,
            )
        }
        Err(WalkFault::Err(errno)) => Seen::Refused(errno),
        Err(WalkFault::NoMemory) => Seen::WantsMemory,
    }
}

pub(crate) fn nothing() -> Reach {
    Reach {
        longest: 0,
        met_proc: false,
    }
}

fn link(alloc: Global, text: &[u8]) -> Result<Node, NoMemory> {
    Ok(Node::Link(Bytes::copy(alloc, text)?))
}

/// Adds a node where the tree takes it.
fn put(tree: &mut Tree, dir: Ino, name: &[u8], node: Node, mode: u16) -> bool {
    let fits = kr_walk::below::is_name(name)
        && tree.takes_names(dir)
        && tree.entry(dir, name).is_none()
        && tree.next_number() < 1000
        && tree.next_serial(dir) < 1000;
    fits && tree.add(dir, name, node, meta(mode)).is_ok()
}

/// Directories /d (2), /d/e (3) and /n (6), which can't be searched; files /d/f (4), /d/e/g (5) and /n/x (7);
/// the process directory /proc (8).
fn plain_tree(alloc: Global) -> Result<Option<Tree>, NoMemory> {
    let mut tree = Tree::new(alloc, meta(0o755))?;
    let whole = put(&mut tree, ROOT, b"d", Node::Dir, 0o755)
        && put(&mut tree, 2, b"e", Node::Dir, 0o755)
        && put(&mut tree, 2, b"f", Node::File(Bytes::new(alloc)), 0o644)
        && put(&mut tree, 3, b"g", Node::File(Bytes::new(alloc)), 0o644)
        && put(&mut tree, ROOT, b"n", Node::Dir, 0o644)
        && put(&mut tree, 6, b"x", Node::File(Bytes::new(alloc)), 0o644)
        && put(&mut tree, ROOT, b"proc", Node::Proc, 0o555);
    Ok(if whole { Some(tree) } else { None })
}

/// The same with links: /abs (9), /d/rel (10), /up (11), /ds (12), /fs (13), /self (14) and /gone (15).
pub(crate) fn linked_tree(alloc: Global) -> Result<Option<Tree>, NoMemory> {
    let Some(mut tree) = plain_tree(alloc)? else {
        return Ok(None);
    };
    let whole = put(&mut tree, ROOT, b"abs", link(alloc, b"/d/e")?, 0o777)
        && put(&mut tree, 2, b"rel", link(alloc, b"e/g")?, 0o777)
        && put(&mut tree, ROOT, b"up", link(alloc, b"../../d")?, 0o777)
        && put(&mut tree, ROOT, b"ds", link(alloc, b"d/")?, 0o777)
        && put(&mut tree, ROOT, b"fs", link(alloc, b"d/f/")?, 0o777)
        && put(&mut tree, ROOT, b"self", link(alloc, b"self")?, 0o777)
        && put(&mut tree, ROOT, b"gone", link(alloc, b"nowhere")?, 0o777);
    Ok(if whole { Some(tree) } else { None })
}

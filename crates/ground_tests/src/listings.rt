//! Listings with ample memory. The expected lines were worked out by hand from the rules of the
//! format.

use guests::DATA;
use guests::below::{Ino, ListFault, Meta, Node, ROOT, Tree, TreeWhy, User, is_name, read, write};
use pt_ident::below::kr_inode::below::pr_base::Bytes;
use std::test::Fail;

/// The *data* listing in order. Its program has the bytes of the ELF source.
const DATA_IN_ORDER: &[u8] = b"user 1000 1000
d 755 0 0 /
d 755 1000 1000 /data
l 1000 1000 /data/abs /f
f 644 1000 1000 /data/n 64300a
l 1000 1000 /data/up /../../f
d 755 1000 1000 /g
d 755 1000 1000 /g/a
d 755 1000 1000 /g/a/b
f 644 1000 1000 /g/a/b/f 660a
d 755 1000 1000 /g/a/x
d 755 1000 1000 /g/b
f 644 1000 1000 /g/f 6f6c640a
f 644 0 0 /g/for -
h /g/h /g/f
d 755 1000 1000 /g/mnt
f 755 1000 1000 /g/p 7f454c46
d 755 1000 1000 /g/proc
f 644 1000 1000 /new 6e65770a
d 755 1000 1000 /other
f 644 1000 1000 /other/o 6f0a
d 755 1000 1000 /other/x
p /proc
";

#[test]
fn a_listing_is_read_and_written_in_order(rt: HostRuntime) -> Result<(), Fail> {
    let listed = read(rt.alloc(), DATA, Some(b"\x7fELF")).ok();
    let (tree, user) = listed.expect(&rt, "a listing");
    let written = write(rt.alloc(), &tree, user)?;
    assert!(rt; written.as_slice() == DATA_IN_ORDER);
    Ok(())
}

/// A listing of a program, behind the user and the root.
const PROGRAM: &[u8] = b"user 1 2
d 755 3 4 /
x 755 0 0 /a
";

/// As many names as the root may have beside it, for each of which there is an inode.
const MOST_NAMES: u32 = 1_048_575;

/// Whether this line passes a limit of the tree.
fn is_too_big(fault: Option<ListFault>, wanted: u32) -> bool {
    match fault {
        Some(
            ListFault::Bad {
                line,
                why: TreeWhy::TooBig,
            },
        ) => line == wanted,
        _ => false,
    }
}

#[test]
fn files_and_trees_have_a_largest_size(rt: HostRuntime) -> Result<(), Fail> {
    let mut elf = Vec::new(rt.alloc());
    elf.resize(16_777_216, 0)?;
    assert!(rt; read(rt.alloc(), PROGRAM, Some(elf.as_slice())).is_ok());
    elf.push(0)?;
    let answer = read(rt.alloc(), PROGRAM, Some(elf.as_slice()));
    assert!(rt; is_too_big(answer.err(), 3));
    // A name too many.
    let mut listing = Bytes::copy(rt.alloc(), PROGRAM)?;
    for number in 1..=MOST_NAMES {
        let line = format!(in rt.alloc(); "l 0 0 /{number} x\n")?;
        listing.append(line.as_bytes())?;
    }
    let answer = read(rt.alloc(), listing.as_slice(), Some(b"\x7fELF"));
    assert!(rt; is_too_big(answer.err(), MOST_NAMES + 3));
    Ok(())
}

const USER: User = User { uid: 1, gid: 2 };

const META: Meta = Meta {
    mode: 0o755,
    uid: 3,
    gid: 4,
    names: 0,
    size: 0,
};

/// Adds a node where the tree takes it.
fn put(tree: &mut Tree, dir: Ino, name: &[u8], node: Node) -> Option<Ino> {
    let fits = is_name(name)
        && tree.takes_names(dir)
        && tree.entry(dir, name).is_none()
        && tree.next_number() < 1_000_000
        && tree.next_serial(dir) < 1_000_000;
    if fits {
        tree.add(dir, name, node, META).ok()
    } else {
        None
    }
}

#[test]
fn a_deep_tree_is_written(rt: HostRuntime) -> Result<(), Fail> {
    let mut tree = Tree::new(rt.alloc(), META)?;
    let mut dir = ROOT;
    for _ in 0..20_000 {
        if let Some(next) = put(&mut tree, dir, b"a", Node::Dir) {
            dir = next;
        }
    }
    assert!(rt; dir == 20_001);
    let written = write(rt.alloc(), &tree, USER)?;
    // `user 1 2` and `d 755 3 4 /`, and `d 755 3 4 ` with two bytes for each component of a path
    assert!(rt; written.len() == 9 + 12 + 20_000 * 11 + 20_000 * 20_001);
    Ok(())
}

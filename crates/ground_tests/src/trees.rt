//! What calls on trees answer with ample memory. All of it was worked out by hand.

use guests::below::{Ino, Meta, Node, ROOT, Tree, TreeRefusal, is_name};
use pt_ident::below::kr_inode::below::pr_base::{Bytes, NoMemory};
use std::test::Fail;

const PLAIN: Meta = Meta {
    mode: 0o755,
    uid: 1000,
    gid: 100,
    names: 0,
    size: 0,
};

/// Adds a node where the tree takes it.
fn put(tree: &mut Tree, dir: Ino, name: &[u8], node: Node) -> Option<Result<Ino, TreeRefusal>> {
    let fits = is_name(name)
        && tree.takes_names(dir)
        && tree.entry(dir, name).is_none()
        && tree.next_number() < u32::MAX
        && tree.next_serial(dir) < u64::MAX;
    if fits {
        Some(tree.add(dir, name, node, PLAIN))
    } else {
        None
    }
}

/// Whether a node was added, with this number.
fn is_made(answer: Option<Result<Ino, TreeRefusal>>, number: Ino) -> bool {
    matches!(answer, Some(Ok(ino)) if ino == number)
}

/// Whether a change was made.
fn is_done(answer: Option<Result<(), TreeRefusal>>) -> bool {
    matches!(answer, Some(Ok(())))
}

/// Whether the tree had no room.
fn is_full<T: Drop>(answer: Option<Result<T, TreeRefusal>>) -> bool {
    matches!(&answer, Some(Err(TreeRefusal::Full)))
}

/// Takes a name away where the tree gives it up.
fn take(tree: &mut Tree, dir: Ino, name: &[u8]) -> bool {
    match tree.entry(dir, name) {
        Some(ino) if !tree.is_filled(ino) => {
            tree.remove(dir, name);
            true
        }
        _ => false,
    }
}

/// Gives a file another name.
fn link(tree: &mut Tree, dir: Ino, name: &[u8], file: Ino) -> Option<Result<(), TreeRefusal>> {
    let fits = is_name(name)
        && tree.takes_names(dir)
        && tree.entry(dir, name).is_none()
        && tree.next_serial(dir) < u64::MAX
        && tree.may_be_linked(file);
    if fits {
        Some(tree.link(dir, name, file))
    } else {
        None
    }
}

/// Gives a file another size.
fn resize(tree: &mut Tree, ino: Ino, size: u64) -> Option<Result<(), TreeRefusal>> {
    if tree.is_file(ino) {
        Some(tree.set_size(ino, size))
    } else {
        None
    }
}

/// Writes at the beginning of a file.
fn write(tree: &mut Tree, ino: Ino, b: &[u8]) -> Option<Result<(), TreeRefusal>> {
    if tree.is_file(ino) {
        Some(tree.write_file(ino, 0, b))
    } else {
        None
    }
}

/// Moves an entry where the tree takes it so.
fn shift(
    tree: &mut Tree,
    dir: Ino,
    name: &[u8],
    to: Ino,
    new: &[u8],
) -> Option<Result<(), NoMemory>> {
    if tree.is_lawful_move(dir, name, to, new) && tree.next_serial(to) < u64::MAX {
        Some(tree.rename(dir, name, to, new))
    } else {
        None
    }
}

/// Whether a directory has a host name; the empty one stands for none.
fn is_called(tree: &Tree, dir: Ino, name: &[u8]) -> Result<bool, NoMemory> {
    match tree.name_of(dir)? {
        Some(found) => Ok(found.as_slice() == name),
        None => Ok(name.is_empty()),
    }
}

#[test]
fn changes_are_made_with_ample_memory(rt: HostRuntime) -> Result<(), Fail> {
    let mut tree = Tree::new(rt.alloc(), PLAIN)?;
    let bytes = Bytes::copy(rt.alloc(), b"abc")?;
    assert!(rt; is_made(put(&mut tree, ROOT, b"d", Node::Dir), 2));
    assert!(rt; is_made(put(&mut tree, ROOT, b"f", Node::File(bytes)), 3));
    assert!(rt; is_done(link(&mut tree, 2, b"h", 3)));
    assert!(rt; is_done(write(&mut tree, 3, b"xy")));
    assert!(rt; is_done(resize(&mut tree, 3, 4)));
    assert!(rt; tree.file(3) == Some(b"xyc\0".as_slice()));
    // To a free name, and onto a name.
    assert!(rt; matches!(shift(&mut tree, ROOT, b"f", 2, b"g"), Some(Ok(()))));
    assert!(rt; is_made(put(&mut tree, ROOT, b"e", Node::Dir), 4));
    assert!(rt; matches!(shift(&mut tree, ROOT, b"d", ROOT, b"e"), Some(Ok(()))));
    assert!(rt; tree.entry(2, b"g") == Some(3));
    assert!(rt; is_called(&tree, 2, b"/e")?);
    Ok(())
}

/// A name for each number below 1,048,576.
fn numbered(number: u32) -> [u8; 4] {
    [
        b'A' + ((number >> 15) & 31) as u8,
        b'A' + ((number >> 10) & 31) as u8,
        b'A' + ((number >> 5) & 31) as u8,
        b'A' + (number & 31) as u8,
    ]
}

#[test]
fn a_tree_has_at_most_268435456_bytes(rt: HostRuntime) -> Result<(), Fail> {
    let mut tree = Tree::new(rt.alloc(), PLAIN)?;
    // Sixteen files of the greatest size.
    for ino in 2..18 {
        let bytes = Bytes::new(rt.alloc());
        assert!(rt; is_made(put(&mut tree, ROOT, &numbered(ino), Node::File(bytes)), ino));
        let answer = resize(&mut tree, ino, 16_777_217);
        assert!(rt; matches!(answer, Some(Err(TreeRefusal::TooBig))));
        assert!(rt; is_done(resize(&mut tree, ino, 16_777_216)));
    }
    let bytes = Bytes::new(rt.alloc());
    assert!(rt; is_made(put(&mut tree, ROOT, b"b", Node::File(bytes)), 18));
    assert!(rt; is_full(resize(&mut tree, 18, 1)));
    assert!(rt; is_full(write(&mut tree, 18, b"x")));
    let bytes = Bytes::copy(rt.alloc(), b"x")?;
    assert!(rt; is_full(put(&mut tree, ROOT, b"c", Node::File(bytes))));
    let text = Bytes::copy(rt.alloc(), b"x")?;
    assert!(rt; is_full(put(&mut tree, ROOT, b"c", Node::Link(text))));
    assert!(rt; is_made(put(&mut tree, ROOT, b"c", Node::Dir), 19));
    assert!(rt; is_done(resize(&mut tree, 2, 16_777_215)));
    assert!(rt; is_done(write(&mut tree, 18, b"x")));
    Ok(())
}

#[test]
fn a_tree_has_at_most_1048576_inodes_and_names(rt: HostRuntime) -> Result<(), Fail> {
    let mut tree = Tree::new(rt.alloc(), PLAIN)?;
    let mut added = 0;
    // The root is an inode without a name.
    for number in 1..1_048_576 {
        let bytes = Bytes::new(rt.alloc());
        let answer = put(&mut tree, ROOT, &numbered(number), Node::File(bytes));
        if is_made(answer, number + 1) {
            added = number;
        }
    }
    assert!(rt; added == 1_048_575);
    // No inode is left, and one name.
    assert!(rt; is_full(put(&mut tree, ROOT, b"d", Node::Dir)));
    assert!(rt; is_done(link(&mut tree, ROOT, b"d", 2)));
    assert!(rt; is_full(link(&mut tree, ROOT, b"e", 2)));
    // An inode is left, and no name.
    assert!(rt; take(&mut tree, ROOT, &numbered(2)));
    assert!(rt; is_done(link(&mut tree, ROOT, b"e", 2)));
    assert!(rt; is_full(put(&mut tree, ROOT, b"f", Node::Dir)));
    assert!(rt; take(&mut tree, ROOT, b"e"));
    assert!(rt; is_made(put(&mut tree, ROOT, b"f", Node::Dir), 1_048_577));
    Ok(())
}

//! What changes of a state answer with ample memory, and what they leave. All of it was worked out by hand.

use kr_ops::State;
use kr_ops::below::{
    Bytes, Files, Ino, Meta, NoMemory, Node, ROOT, Room, Tree, TreeRefusal, User, is_name,
};
use std::alloc::Global;
use std::test::Fail;

const PLAIN: Meta = Meta {
    mode: 0o755,
    uid: 1000,
    gid: 100,
    names: 0,
    size: 0,
};

/// A state without processes, with a root and three bytes of input.
fn fresh<T: Copy, const M: u8>(alloc: Global) -> Result<State<T, M>, NoMemory> {
    Ok(State {
        tree: Tree::new(alloc, PLAIN)?,
        user: User {
            uid: 1000,
            gid: 100,
        },
        files: Files::new(alloc),
        room: Room::new(),
        input: Bytes::copy(alloc, b"abc")?,
        taken: 0,
        out: Bytes::new(alloc),
        err: Bytes::new(alloc),
        living: Vec::new(alloc),
        ended: Vec::new(alloc),
        next_pid: 2,
    })
}

/// Puts a node into the root, where that takes it.
fn put<T: Copy, const M: u8>(
    state: &mut State<T, M>,
    name: &[u8],
    node: Node,
) -> Option<Result<Ino, TreeRefusal>> {
    if is_name(name)
        && state.tree.takes_names(ROOT)
        && state.tree.entry(ROOT, name).is_none()
        && state.tree.next_number() < u32::MAX
        && state.tree.next_serial(ROOT) < u64::MAX
    {
        Some(state.add_node(ROOT, name, node, PLAIN))
    } else {
        None
    }
}

/// Gives a file another name in the root, where that takes it.
fn name<T: Copy, const M: u8>(
    state: &mut State<T, M>,
    name: &[u8],
    file: Ino,
) -> Option<Result<(), TreeRefusal>> {
    if is_name(name)
        && state.tree.takes_names(ROOT)
        && state.tree.entry(ROOT, name).is_none()
        && state.tree.next_serial(ROOT) < u64::MAX
        && state.tree.may_be_linked(file)
    {
        Some(state.link_node(ROOT, name, file))
    } else {
        None
    }
}

// The console takes bytes; then nodes are made and changed in another state.
#[test]
fn the_console_and_the_tree_change(rt: HostRuntime) -> Result<(), Fail> {
    let mut state: State<u32, 0> = fresh(rt.alloc())?;
    assert!(rt; state.write_out(b"ab").is_ok());
    assert!(rt; state.write_out(b"c").is_ok());
    assert!(rt; state.write_err(b"de").is_ok());
    assert!(rt; state.out.as_slice() == b"abc".as_slice());
    assert!(rt; state.err.as_slice() == b"de".as_slice());

    let mut state: State<u8, 1> = fresh(rt.alloc())?;
    let bytes = Bytes::copy(rt.alloc(), b"abc")?;
    assert!(rt; matches!(put(&mut state, b"f", Node::File(bytes)), Some(Ok(2))));
    assert!(rt; matches!(name(&mut state, b"g", 2), Some(Ok(()))));
    assert!(rt; state.tree.entry(ROOT, b"g") == Some(2));
    assert!(rt; state.tree.is_file(2));
    assert!(rt; state.write_file(2, 2, b"xy").is_ok());
    assert!(rt; state.tree.file(2) == Some(b"abxy".as_slice()));
    assert!(rt; state.tree.is_file(2));
    assert!(rt; state.set_size(2, 1).is_ok());
    assert!(rt; state.tree.file(2) == Some(b"a".as_slice()));
    Ok(())
}

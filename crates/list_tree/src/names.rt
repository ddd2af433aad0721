//! Many names of one directory.

use crate::fault::Fault;
use kr_text::below::Bytes;
use kr_text::below::kr_tree::{Meta, Node, ROOT, Tree, TreeRefusal, is_name};
use std::alloc::Global;

/// How many names were added, found and removed, and how many are left.
#[derive(Clone, Copy)]
pub(crate) struct Counts {
    pub(crate) added: u32,
    pub(crate) found: u32,
    pub(crate) removed: u32,
    pub(crate) left: u32,
}

const META: Meta = Meta {
    mode: 0o755,
    uid: 1,
    gid: 1,
    names: 0,
    size: 0,
};

/// The name of a number.
fn name_of(alloc: Global, number: u32) -> Result<String, Fault> {
    match format!(in alloc; "n{number}") {
        Ok(name) => Ok(name),
        Err(_) => Err(Fault::Memory),
    }
}

/// Adds a file without bytes under a name that is free in the root.
fn add(alloc: Global, tree: &mut Tree, name: &[u8]) -> Result<(), Fault> {
    let fits = is_name(name)
        && tree.takes_names(ROOT)
        && tree.entry(ROOT, name).is_none()
        && tree.next_number() < u32::MAX
        && tree.next_serial(ROOT) < u64::MAX;
    if !fits {
        return Err(Fault::Full);
    }
    match tree.add(ROOT, name, Node::File(Bytes::new(alloc)), META) {
        Ok(_ino) => Ok(()),
        Err(TreeRefusal::NoMemory) => Err(Fault::Memory),
        Err(TreeRefusal::Full) | Err(TreeRefusal::TooBig) => Err(Fault::Full),
    }
}

/// Whether a name in the root was there and is taken away.
fn remove(tree: &mut Tree, name: &[u8]) -> bool {
    match tree.entry(ROOT, name) {
        Some(ino) if !tree.is_filled(ino) => {
            tree.remove(ROOT, name);
            true
        }
        _ => false,
    }
}

/// How many names the root has.
fn count_left(tree: &Tree) -> u32 {
    let mut left: u32 = 0;
    let mut after = 0;
    for _ in 0..u32::MAX {
        let Some((serial, _name, _ino)) = tree.next_entry(ROOT, after) else {
            break;
        };
        after = serial;
        left = left.saturating_add(1);
    }
    left
}

/// Adds `number` names to the root of a new tree, looks each up, and removes each.
pub(crate) fn exercise(alloc: Global, number: u32) -> Result<Counts, Fault> {
    let mut tree = Tree::new(alloc, META)?;
    let mut counts = Counts {
        added: 0,
        found: 0,
        removed: 0,
        left: 0,
    };
    for n in 0..number {
        add(alloc, &mut tree, name_of(alloc, n)?.as_bytes())?;
        counts.added = counts.added.saturating_add(1);
    }
    for n in 0..number {
        let found = tree.entry(ROOT, name_of(alloc, n)?.as_bytes()).is_some();
        counts.found = counts.found.saturating_add(u32::from(found));
    }
    for n in 0..number {
        let removed = remove(&mut tree, name_of(alloc, n)?.as_bytes());
        counts.removed = counts.removed.saturating_add(u32::from(removed));
    }
    counts.left = count_left(&tree);
    Ok(counts)
}

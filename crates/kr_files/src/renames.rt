//! Open files after an entry was removed or renamed.
ghost use Rattle.std.specs.Prelude.{◌≡◌, ℕ, ◌≤◌, length, vec_len, Some, IsTrue, IfOk};
ghost use Rattle.slab.specs.Slab.{get};
ghost use Rattle.kr_files.specs.declared.open_files.OpenFile.{OpenFile};
ghost use Rattle.kr_files.specs.OpenFiles.{ChangesAt, ChangesEach, HasCopies};
ghost use Rattle.kr_files.specs.Opened.{remembers, after_removal, after_rename};

use crate::open_files::OpenFile;
use kr_tree::Ino;
use kr_tree::below::pr_base::{Bytes, NoMemory};
use slab::Slab;
use std::alloc::Global;

// Forgets an entry at one key.
fn forget_at<M: Copy>(slab: &mut Slab<OpenFile<M>>, key: usize, dir: Ino, name: &[u8])
    ensures { ChangesAt (after_removal dir name.now) slab.old slab.new key }
{
    if slab.contains(key) {
        let file = &mut slab[key];
        file.opened.forget(dir, name);
    }
}

/// Forgets an entry everywhere.
pub(crate) fn forget_all<M: Copy>(slab: &mut Slab<OpenFile<M>>, dir: Ino, name: &[u8])
    ensures { ChangesEach (after_removal dir name.now) slab.old slab.new }
{
    for key in 0..slab.capacity() {
        forget_at(slab, key, dir, name);
    }
}

// A copy of the new name, if the file under a key remembers the entry that is renamed.
fn copy_for<M: Copy>(
    slab: &Slab<OpenFile<M>>,
    alloc: Global,
    key: usize,
    dir: Ino,
    name: &[u8],
    new: &[u8],
) -> Result<Option<Bytes>, NoMemory>
    ensures { IfOk result (λ copy. (e : OpenFile M) → get slab.now key ≡ Some e → IsTrue (remembers dir name.now e.opened) → copy ≡ Some new.now) }
{
    match slab.get(key) {
        Some(file) if file.opened.remembers(dir, name) => Ok(Some(Bytes::copy(alloc, new)?)),
        _ => Ok(None),
    }
}

/// Copies of the new name by keys, for the files that remember the entry that is renamed.
pub(crate) fn copies_for<M: Copy>(
    slab: &Slab<OpenFile<M>>,
    alloc: Global,
    dir: Ino,
    name: &[u8],
    new: &[u8],
) -> Result<Vec<Option<Bytes>>, NoMemory>
    ensures copies { IfOk result (λ copies. HasCopies dir name.now new.now slab.now copies.items (vec_len copies)) }
    ensures enough { IfOk result (λ copies. length slab.now.slots ≤ vec_len copies) }
{
    let mut copies = Vec::new(alloc);
    for key in 0..slab.capacity() {
        let copy = copy_for(slab, alloc, key, dir, name, new)?;
        copies.push(copy)?;
    }
    Ok(copies)
}

// Lets the file under a key follow a rename.
fn follow_at<M: Copy>(
    slab: &mut Slab<OpenFile<M>>,
    key: usize,
    copy: Option<Bytes>,
    dir: Ino,
    name: &[u8],
    to: Ino,
    new: &[u8],
)
    requires { (e : OpenFile M) → get slab.old key ≡ Some e → IsTrue (remembers dir name.now e.opened) → copy ≡ Some new.now }
    ensures { ChangesAt (after_rename dir name.now to new.now) slab.old slab.new key }
{
    if slab.contains(key) {
        let file = &mut slab[key];
        file.opened.follow(dir, name, to, new, copy);
    }
}

/// Lets all files follow a rename, from the last key down.
pub(crate) fn follow_all<M: Copy>(
    slab: &mut Slab<OpenFile<M>>,
    mut copies: Vec<Option<Bytes>>,
    dir: Ino,
    name: &[u8],
    to: Ino,
    new: &[u8],
)
    requires copies { HasCopies dir name.now new.now slab.old copies.items (vec_len copies) }
    requires enough { length slab.old.slots ≤ vec_len copies }
    ensures { ChangesEach (after_rename dir name.now to new.now) slab.old slab.new }
{
    while let Some(copy) = copies.pop() {
        let key = copies.len();
        follow_at(slab, key, copy, dir, name, to, new);
    }
}

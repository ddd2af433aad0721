//! Owners and modes that calls set, remembered by inode.
ghost use Rattle.std.specs.Prelude.{◌≡◌, OnOk, OnErr};

use crate::change::{Change, Shown};
use crate::entry::Entry;
use kr_inode::below::pr_base::NoMemory;
use std::alloc::Global;
use std::collections::BTreeMap;
use std::marker::Model;

/// For each inode of which something was said: its owner, its group and the low 12 bits of its mode, each given or not.
#[derive(Drop)]
pub struct Owners {
    by_inode: BTreeMap<u64, Entry>,
}

impl Model for Owners {
    ghost use Rattle.std.specs.FinMap as map;
    ghost use Rattle.pt_ident.specs.Owners.{Remembered, remembered_code};

    ghost Value = { Remembered };

    ghost coded = { remembered_code };

    ghost view = { λ o. map.from_entries o.by_inode.entries };
}

impl Owners {
    ghost use Rattle.pt_ident.specs.Owners.{entry_of, noted, nothing, shown_of};

    /// Nothing is remembered. It takes no memory.
    pub fn new(alloc: Global) -> Owners
        ensures { result ≡ nothing }
    {
        Owners {
            by_inode: BTreeMap::new(alloc),
        }
    }

    /// Remembers a change of an inode. Where memory is wanting nothing changes.
    pub fn note(&mut self, ino: u64, change: Change) -> Result<(), NoMemory>
        ensures ok { OnOk result (self.new ≡ noted self.old ino change) }
        ensures err { OnErr result (self.new ≡ self.old) }
    {
        let entry = self.entry(ino).with(change);
        self.by_inode.insert(ino, entry)?;
        Ok(())
    }

    /// What is shown of an inode: `base`, with what is remembered in its place.
    pub fn shown(&self, ino: u64, base: Shown) -> Shown
        ensures { result ≡ shown_of self.now ino base }
    {
        self.entry(ino).shown(base)
    }

    /// What is remembered of an inode.
    fn entry(&self, ino: u64) -> Entry
        ensures { result ≡ entry_of self.now ino }
    {
        match self.by_inode.get(&ino) {
            None => Entry::new(),
            Some(entry) => *entry,
        }
    }
}

//! The entries of one directory.
ghost use Rattle.std.specs.Prelude.{◌≡◌, ◌+◌, ◌^◌, ◌<◌, true, [], Some, None, OnOk, OnErr, IsSome, IsTrue, ◌↔◌};
ghost use Rattle.std.specs.Option.{option_map};

use crate::node::Ino;
use pr_base::NoMemory;
use std::alloc::Global;
use std::collections::{BTreeMap, HashMap};
use std::marker::Model;
use std::ops::Bound;

/// What is kept at a name: the serial of the entry, and the inode that it stands for.
#[derive(Clone, Copy)]
pub struct Slot {
    pub serial: u64,
    pub inode: Ino,
}

/// A name and the inode that it stands for.
#[derive(Drop)]
pub struct Named {
    name: Vec<u8>,
    inode: Ino,
}

/// The entries of a directory, which a proof sees as a list in the order of their serials. Each has
/// a serial of its own, which rises with every new entry.
///
/// They stand in an ordered map by serial, with what is kept at each name in a table beside it.
#[derive(Drop)]
pub struct Entries {
    by_serial: BTreeMap<u64, Named>,
    by_name: HashMap<Vec<u8>, Slot>,
    next: u64,
}

impl Model for Entries {
    ghost use Rattle.kr_inode.specs.Entries.{Entries, entries_code, stored, IsListed, IsNamed};

    ghost Value = { Entries };

    ghost coded = { entries_code };

    ghost view = { λ d. record { list = stored d.by_serial.entries; next = d.next } };

    ghost invariant = { λ d. IsNamed d.by_name.entries (stored d.by_serial.entries) × IsListed (record { list = stored d.by_serial.entries; next = d.next }) };
}

impl Entries {
    ghost use Rattle.kr_inode.specs.Inode.{entry_named, entry_after, entry_at};
    ghost use Rattle.kr_inode.specs.Names.{is_name};
    ghost use Rattle.kr_inode.specs.Entries.{no_entries, with_new, without, slot_of, IsListed};

    /// No entries. It takes no memory yet.
    pub fn new(alloc: Global) -> Entries
        ensures { result ≡ no_entries }
    {
        Entries {
            by_serial: BTreeMap::new(alloc),
            by_name: HashMap::new(alloc),
            next: 3,
        }
    }

    /// Whether there are no entries.
    pub fn is_empty(&self) -> bool
        ensures empty { IsTrue result ↔ (self.now.list ≡ []) }
        ensures listed { IsListed self.now }
    {
        self.by_serial.is_empty()
    }

    /// The serial that the next entry takes.
    pub fn next_serial(&self) -> u64
        ensures { result ≡ self.now.next }
    {
        self.next
    }

    /// What is kept at a name.
    pub fn find(&self, name: &[u8]) -> Option<Slot>
        ensures { result ≡ option_map slot_of (entry_named name.now self.now.list) }
    {
        self.by_name.get(name).copied()
    }

    /// The entry of a serial: its name and inode.
    pub fn at(&self, serial: u64) -> Option<(&[u8], Ino)>
        ensures { option_map (λ p. record { name = p.0.now; serial = serial; inode = p.1 }) result ≡ entry_at serial self.now.list }
    {
        let held = self.by_serial.get(&serial)?;
        Some((held.name.as_slice(), held.inode))
    }

    /// The first entry whose serial is above one: its serial, name and inode.
    pub fn after(&self, serial: u64) -> Option<(u64, &[u8], Ino)>
        ensures { option_map (λ p. record { name = p.1.now; serial = p.0; inode = p.2 }) result ≡ entry_after serial self.now.list }
    {
        let above = (Bound::Excluded(serial), Bound::Unbounded);
        let (next, held) = self.by_serial.range(above).next()?;
        Some((*next, held.name.as_slice(), held.inode))
    }

    /// Adds an entry, which takes the next serial.
    pub fn add(&mut self, name: Vec<u8>, inode: Ino) -> Result<(), NoMemory>
        requires well_formed { is_name name.items ≡ true }
        requires free { entry_named name.items self.old.list ≡ None }
        requires serials { self.old.next + 1 < 2 ^ 64 }
        ensures ok { OnOk result (self.new ≡ with_new name.items inode self.old) }
        ensures err { OnErr result (self.new ≡ self.old) }
    {
        let serial = self.next;
        let copy = name.clone()?;
        self.by_name.insert(copy, Slot { serial, inode })?;
        if let Err(refused) = self.by_serial.insert(serial, Named { name, inode }) {
            // The name goes from the table again.
            let (_serial, held) = refused.value;
            let _slot = self.by_name.remove(held.name.as_slice());
            return Err(NoMemory);
        }
        self.next = serial + 1;
        Ok(())
    }

    /// Takes the entry of a name away, if there is one.
    pub fn remove(&mut self, name: &[u8])
        ensures { self.new ≡ without name.now self.old }
    {
        let Some(slot) = self.by_name.remove(name) else {
            return;
        };
        let _gone = self.by_serial.remove(&slot.serial);
    }

    /// Puts an inode at a name that there is, as a new entry with the next serial in place of the old
    /// one.
    pub fn replace(&mut self, name: &[u8], inode: Ino) -> Result<(), NoMemory>
        requires named { IsSome (entry_named name.now self.old.list) }
        requires serials { self.old.next + 1 < 2 ^ 64 }
        ensures ok { OnOk result (self.new ≡ with_new name.now inode (without name.now self.old)) }
        ensures err { OnErr result (self.new ≡ self.old) }
    {
        let serial = self.next;
        let old = self.by_name.get(name).unwrap().serial;
        let name_again = self.by_serial.get(&old).unwrap().name.clone()?;
        self.by_serial.insert(
            serial,
            Named {
                name: name_again,
                inode,
            },
        )?;
        let _gone = self.by_serial.remove(&old);
        *self.by_name.get_mut(name).unwrap() = Slot { serial, inode };
        self.next = serial + 1;
        Ok(())
    }

    /// Whether both have the same entries with the same serials.
    pub fn same(&self, other: &Entries) -> bool
        ensures { IsTrue result ↔ (self.now.list ≡ other.now.list) }
    {
        if self.by_serial.len() != other.by_serial.len() {
            return false;
        }
        let mut last = 0;
        while let Some((serial, name, inode)) = self.after(last) {
            let Some((other_serial, other_name, other_inode)) = other.after(last) else {
                return false;
            };
            if serial != other_serial || inode != other_inode || name != other_name {
                return false;
            }
            last = serial;
        }
        other.after(last).is_none()
    }
}

//! The inodes by their numbers.
ghost use Rattle.std.specs.Prelude.{length, ◌≡◌, ◌+◌, ◌-◌, ◌^◌, ◌<◌, ◌≤◌, true, false, Some, None, OnOk, OnErr, IsTrue, ◌↔◌, IfSome, IsSome};
ghost use Rattle.std.specs.FinMap as map;
ghost use Rattle.std.specs.Option.{option_copied, option_map_or};

use kr_inode::below::pr_base::NoMemory;
use kr_inode::{Ino, Inode, Standing};
use std::alloc::Global;
use std::collections::BTreeMap;
use std::marker::Model;

/// The inodes by their numbers.
#[derive(Drop)]
pub struct Store {
    inodes: BTreeMap<Ino, Inode>,
}

impl Model for Store {
    ghost use Rattle.std.specs.FinMap as map;
    ghost use Rattle.kr_tree.specs.Tree.{Inodes, inodes_code};

    ghost Value = { Inodes };

    ghost coded = { inodes_code };

    ghost view = { λ s. map.from_entries s.inodes.entries };
}

impl Store {
    ghost use Rattle.kr_tree.specs.Tree.{entry_named, entries_of, is_listed, with_values};
    ghost use Rattle.kr_tree.specs.Names.{is_name};
    ghost use Rattle.kr_tree.specs.Changes.{with_inode, with_mode, with_owner, with_names, with_holds, with_entry, without_entry, unnamed, with_body, with_standing, with_bytes, sized, overwritten, without_unused, freed, counted};

    /// No inodes. It takes no memory yet.
    pub fn new(alloc: Global) -> Store
        ensures { result ≡ map.empty }
    {
        Store {
            inodes: BTreeMap::new(alloc),
        }
    }

    /// How many inodes there are.
    pub fn len(&self) -> usize
        ensures { result ≡ map.len self.now }
    {
        self.inodes.len()
    }

    /// The inode of a number.
    pub fn get(&self, ino: Ino) -> Option<&Inode>
        ensures { option_copied result ≡ map.get self.now ino }
    {
        self.inodes.get(&ino)
    }

    /// Whether both have the same nodes at the same numbers, without what is kept beside them.
    pub fn same(&self, other: &Store) -> bool
        ensures { IsTrue result ↔ (with_values (λ x. x.node) self.now ≡ with_values (λ x. x.node) other.now) }
    {
        let mut others = other.inodes.iter();
        for (ino, inode) in self.inodes.iter() {
            match others.next() {
                Some((number, found)) if *number == *ino && inode.same(found) => {}
                _ => return false,
            }
        }
        others.next().is_none()
    }

    /// Puts an inode at a number. Where memory is wanting nothing changes.
    pub fn insert(&mut self, ino: Ino, inode: Inode) -> Result<(), NoMemory>
        ensures ok { OnOk result (self.new ≡ map.insert self.old ino inode) }
        ensures err { OnErr result (self.new ≡ self.old) }
    {
        self.inodes.insert(ino, inode)?;
        Ok(())
    }

    /// Takes the inode of a number away, if there is one.
    pub fn remove(&mut self, ino: Ino)
        ensures { self.new ≡ map.remove self.old ino }
    {
        let _gone = self.inodes.remove(&ino);
    }

    /// Takes the inode of a number away if nothing names or holds it, and tells how many bytes went
    /// with it.
    pub fn remove_if_unused(&mut self, ino: Ino) -> u64
        ensures inodes { self.new ≡ without_unused ino self.old }
        ensures bytes { result ≡ freed ino self.old }
    {
        match self.get(ino) {
            Some(inode) if inode.is_unused() => {
                let size = inode.size();
                self.remove(ino);
                size
            }
            _ => 0,
        }
    }

    pub fn set_mode(&mut self, ino: Ino, mode: u16)
        ensures { self.new ≡ with_inode ino (with_mode mode) self.old }
    {
        if let Some(inode) = self.inodes.get_mut(&ino) {
            inode.set_mode(mode);
        }
    }

    pub fn set_owner(&mut self, ino: Ino, uid: u32, gid: u32)
        ensures { self.new ≡ with_inode ino (with_owner uid gid) self.old }
    {
        if let Some(inode) = self.inodes.get_mut(&ino) {
            inode.set_owner(uid, gid);
        }
    }

    /// One more hold.
    pub fn hold(&mut self, ino: Ino)
        requires { option_map_or (λ x. x.holds) (map.get self.old ino) 0 + 1 < 2 ^ 32 }
        ensures { self.new ≡ with_inode ino (with_holds (λ n. n + 1)) self.old }
    {
        if let Some(inode) = self.inodes.get_mut(&ino) {
            inode.hold();
        }
    }

    /// One hold less.
    pub fn release(&mut self, ino: Ino)
        requires { 0 < option_map_or (λ x. x.holds) (map.get self.old ino) 1 }
        ensures { self.new ≡ with_inode ino (with_holds (λ n. n - 1)) self.old }
    {
        if let Some(inode) = self.inodes.get_mut(&ino) {
            inode.release();
        }
    }

    /// One more name.
    pub fn add_name(&mut self, ino: Ino)
        requires { option_map_or (λ x. x.names) (map.get self.old ino) 0 + 1 < 2 ^ 32 }
        ensures { self.new ≡ with_inode ino (with_names (λ n. n + 1)) self.old }
    {
        if let Some(inode) = self.inodes.get_mut(&ino) {
            inode.add_name();
        }
    }

    /// One name less.
    pub fn remove_name(&mut self, ino: Ino)
        requires { 0 < option_map_or (λ x. x.names) (map.get self.old ino) 1 }
        ensures { self.new ≡ with_inode ino unnamed self.old }
    {
        if let Some(inode) = self.inodes.get_mut(&ino) {
            inode.remove_name();
        }
    }

    /// Another place for a directory.
    pub fn stand(&mut self, ino: Ino, standing: Standing)
        ensures { self.new ≡ with_inode ino (with_body (with_standing (Some standing))) self.old }
    {
        if let Some(inode) = self.inodes.get_mut(&ino) {
            inode.stand(Some(standing));
        }
    }

    /// An entry of a directory taken away.
    pub fn remove_entry(&mut self, dir: Ino, name: &[u8], is_dir: bool)
        ensures { self.new ≡ with_inode dir (without_entry name.now is_dir) self.old }
    {
        if let Some(inode) = self.inodes.get_mut(&dir) {
            inode.remove_entry(name, is_dir);
        }
    }

    /// Cuts a file at a size, or fills it with zeros up to it. Where memory is wanting nothing
    /// changes.
    pub fn resize(&mut self, ino: Ino, size: usize) -> Result<(), NoMemory>
        ensures ok { OnOk result (self.new ≡ with_inode ino (with_body (with_bytes (sized size))) self.old) }
        ensures err { OnErr result (self.new ≡ self.old) }
    {
        match self.inodes.get_mut(&ino) {
            Some(inode) => inode.resize(size),
            None => Ok(()),
        }
    }

    /// Writes bytes into a file from a place on. Where memory is wanting nothing changes.
    pub fn overwrite(&mut self, ino: Ino, at: usize, b: &[u8]) -> Result<(), NoMemory>
        requires { 0 < length b.now → at + length b.now < 2 ^ 63 }
        ensures ok { OnOk result (self.new ≡ with_inode ino (with_body (with_bytes (overwritten at b.now))) self.old) }
        ensures err { OnErr result (self.new ≡ self.old) }
    {
        match self.inodes.get_mut(&ino) {
            Some(inode) => inode.overwrite(at, b),
            None => Ok(()),
        }
    }

    /// One more entry of a directory. Where memory is wanting nothing changes.
    pub fn add_entry(
        &mut self,
        dir: Ino,
        name: Vec<u8>,
        inode: Ino,
        is_dir: bool,
    ) -> Result<(), NoMemory>
        requires directory { IfSome (map.get self.old dir) (λ x. IsTrue (is_listed x.node.body)) }
        requires well_formed { is_name name.items ≡ true }
        requires free { IfSome (map.get self.old dir) (λ x. entry_named name.items (entries_of x.node.body) ≡ None) }
        requires serials { IfSome (map.get self.old dir) (λ x. x.next_serial + 1 < 2 ^ 64) }
        requires directories { IfSome (map.get self.old dir) (λ x. x.directories + 1 < 2 ^ 32) }
        ensures ok { OnOk result (self.new ≡ with_inode dir (with_entry name.items inode is_dir) self.old) }
        ensures err { OnErr result (self.new ≡ self.old) }
    {
        match self.inodes.get_mut(&dir) {
            Some(directory) => directory.add_entry(name, inode, is_dir),
            None => Ok(()),
        }
    }

    /// An entry of a directory for another inode in place of one of the same name. Both are
    /// directories or neither is. Where memory is wanting nothing changes.
    pub fn replace_entry(
        &mut self,
        dir: Ino,
        name: &[u8],
        inode: Ino,
        is_dir: bool,
    ) -> Result<(), NoMemory>
        requires directory { IfSome (map.get self.old dir) (λ x. IsTrue (is_listed x.node.body)) }
        requires named { IfSome (map.get self.old dir) (λ x. IsSome (entry_named name.now (entries_of x.node.body))) }
        requires serials { IfSome (map.get self.old dir) (λ x. x.next_serial + 1 < 2 ^ 64) }
        requires directories { IfSome (map.get self.old dir) (λ x. counted is_dir ≤ x.directories) }
        ensures ok { OnOk result (self.new ≡ with_inode dir (λ x. with_entry name.now inode is_dir (without_entry name.now is_dir x)) self.old) }
        ensures err { OnErr result (self.new ≡ self.old) }
    {
        match self.inodes.get_mut(&dir) {
            Some(directory) => directory.replace_entry(name, inode, is_dir),
            None => Ok(()),
        }
    }

    /// Puts a new inode at a free number, and an entry for it into a directory. Where memory is
    /// wanting nothing changes.
    pub fn put(
        &mut self,
        dir: Ino,
        name: Vec<u8>,
        ino: Ino,
        inode: Inode,
        is_dir: bool,
    ) -> Result<(), NoMemory>
        requires new { map.get self.old ino ≡ None }
        requires there { IsSome (map.get self.old dir) }
        requires directory { IfSome (map.get self.old dir) (λ x. IsTrue (is_listed x.node.body)) }
        requires well_formed { is_name name.items ≡ true }
        requires free { IfSome (map.get self.old dir) (λ x. entry_named name.items (entries_of x.node.body) ≡ None) }
        requires serials { IfSome (map.get self.old dir) (λ x. x.next_serial + 1 < 2 ^ 64) }
        requires directories { IfSome (map.get self.old dir) (λ x. x.directories + 1 < 2 ^ 32) }
        ensures ok { OnOk result (self.new ≡ map.insert (with_inode dir (with_entry name.items ino is_dir) self.old) ino inode) }
        ensures err { OnErr result (self.new ≡ self.old) }
    {
        self.insert(ino, inode)?;
        let added = self.add_entry(dir, name, ino, is_dir);
        if added.is_err() {
            self.remove(ino);
        }
        added
    }
}

//! The table of open files.
ghost use Rattle.std.specs.Prelude.{◌≡◌, ℕ, ◌<◌, ◌≤◌, ◌+◌, ◌^◌, Some, None, IsSome, OnOk, OnErr, is_some, if◌then◌else◌};
ghost use Rattle.std.specs.Option.{option_copied, option_map, option_map_or};
ghost use Rattle.std.specs.FinMap as map;

use crate::descs::{Descriptor, Descs};
use crate::opened::{Opened, What};
use crate::renames::{copies_for, follow_all, forget_all};
use kr_tree::Ino;
use kr_tree::below::pr_base::NoMemory;
use slab::Slab;
use std::alloc::Global;
use std::marker::Model;

/// An open file, with the number that it was opened under and how many descriptors name it.
#[derive(Drop)]
pub(crate) struct OpenFile<M> {
    pub(crate) number: u64,
    pub(crate) count: u32,
    pub(crate) opened: Opened<M>,
}

/// The open files of all processes, each under a key that its descriptors have.
#[derive(Drop)]
pub(crate) struct OpenFiles<M> {
    slab: Slab<OpenFile<M>>,
}

impl<M> Model for OpenFiles<M> {
    ghost use Rattle.std.specs.Coded.{codes};
    ghost use Rattle.kr_files.specs.OpenFiles.{Store, store_code};

    ghost Value = { Store M };

    ghost coded = { store_code (Prim.hlevel (codes, M.code)) };

    ghost use Rattle.kr_files.specs.OpenFiles.{store_of, AreStored};

    ghost view = { λ o. store_of o.slab };

    ghost invariant = { λ o. AreStored o.slab.slots };
}

impl<M: Copy> OpenFiles<M> {
    ghost use Rattle.kr_files.specs.Files.{Counted, GivesPair, counted_more, on_opened, at_offset, with_append};
    ghost use Rattle.kr_files.specs.Laws.{HaveKeys, AreCounted};
    ghost use Rattle.kr_tree.specs.pr_base.Maps.{changed, mapped};
    ghost use Rattle.kr_files.specs.Descriptors.{meanings, named_count};
    ghost use Rattle.kr_files.specs.declared.descs.Descriptor.{Descriptor};
    ghost use Rattle.kr_files.specs.OpenFiles.{SameFiles, ended_kind, with_one_less};
    ghost use Rattle.kr_files.specs.Opened.{after_removal, after_rename};

    /// No file is open. It takes no memory.
    pub(crate) fn new(alloc: Global) -> OpenFiles<M>
        ensures keys { result.keys ≡ map.empty }
        ensures files { result.files ≡ map.empty }
    {
        OpenFiles {
            slab: Slab::new(alloc),
        }
    }

    /// Files and keys belong together, and each file is named by a descriptor.
    pub(crate) fn are_kept(&self)
        ensures keys { HaveKeys self.now.keys self.now.files }
        ensures counts { AreCounted self.now.files }
    {
        // For the proof alone: what holds of each table.
        let _ = &self.slab;
    }

    /// Makes room for `count` more files.
    pub(crate) fn reserve(&mut self, count: usize) -> Result<(), NoMemory>
        ensures room { OnOk result (count ≤ self.new.room) }
        ensures same { SameFiles self.old self.new }
    {
        self.slab.reserve(count)?;
        Ok(())
    }

    /// The key that the next file gets.
    pub(crate) fn vacant_key(&self) -> usize
        ensures value { result ≡ self.now.vacant }
        ensures free { map.get self.now.keys result ≡ None }
    {
        self.slab.vacant_key()
    }

    /// Keeps one more file, which one descriptor names.
    pub(crate) fn add(&mut self, number: u64, opened: Opened<M>)
        requires room { 1 ≤ self.old.room }
        requires fresh { map.get self.old.files number ≡ None }
        ensures keys { self.new.keys ≡ map.insert self.old.keys self.old.vacant number }
        ensures files { self.new.files ≡ map.insert self.old.files number (record { opened = opened; count = 1 }) }
        ensures room { self.new.room + 1 ≡ self.old.room }
    {
        let _key = self.slab.insert_reserved(OpenFile {
            number,
            count: 1,
            opened,
        });
    }

    /// What is open under a descriptor.
    pub(crate) fn get(&self, descriptor: Descriptor) -> Option<&Opened<M>>
        requires { map.get self.now.keys descriptor.key ≡ Some descriptor.number }
        ensures value { option_copied result ≡ option_map (λ h. h.opened) (map.get self.now.files descriptor.number) }
        ensures found { IsSome result }
    {
        match self.slab.get(descriptor.key) {
            Some(file) => Some(&file.opened),
            None => None,
        }
    }

    /// Counts one descriptor more.
    pub(crate) fn raise(&mut self, descriptor: Descriptor)
        requires named { map.get self.old.keys descriptor.key ≡ Some descriptor.number }
        requires counted { option_map_or (λ h. h.count) (map.get self.old.files descriptor.number) 0 + 1 < 2 ^ 32 }
        ensures keys { self.new.keys ≡ self.old.keys }
        ensures files { self.new.files ≡ changed self.old.files descriptor.number (counted_more 1) }
    {
        let file = &mut self.slab[descriptor.key];
        file.count += 1;
    }

    /// Counts one descriptor less. The last one takes the file away, and its kind is told.
    pub(crate) fn lower(&mut self, descriptor: Descriptor) -> Option<What>
        requires { map.get self.old.keys descriptor.key ≡ Some descriptor.number }
        ensures ended { result ≡ ended_kind self.old.files descriptor.number }
        ensures files { self.new.files ≡ with_one_less self.old.files descriptor.number }
        ensures keys { self.new.keys ≡ (if is_some (ended_kind self.old.files descriptor.number) then map.remove self.old.keys descriptor.key else self.old.keys) }
    {
        let file = &mut self.slab[descriptor.key];
        if file.count > 1 {
            file.count -= 1;
            return None;
        }
        let file = self.slab.remove(descriptor.key);
        Some(file.opened.what)
    }

    /// Moves the offset of an open file.
    pub(crate) fn seek(&mut self, descriptor: Descriptor, at: u64)
        requires { map.get self.old.keys descriptor.key ≡ Some descriptor.number }
        ensures keys { self.new.keys ≡ self.old.keys }
        ensures files { self.new.files ≡ changed self.old.files descriptor.number (on_opened (at_offset at)) }
    {
        let file = &mut self.slab[descriptor.key];
        file.opened.at = at;
    }

    /// Says whether each write of an open file goes to the end.
    pub(crate) fn set_append(&mut self, descriptor: Descriptor, on: bool)
        requires { map.get self.old.keys descriptor.key ≡ Some descriptor.number }
        ensures keys { self.new.keys ≡ self.old.keys }
        ensures files { self.new.files ≡ changed self.old.files descriptor.number (on_opened (with_append on)) }
    {
        let file = &mut self.slab[descriptor.key];
        file.opened.append = on;
    }

    /// Keeps one more file under a descriptor that is taken already.
    pub(crate) fn add_under(
        &mut self,
        d: &mut Descs,
        fd: u32,
        number: u64,
        opened: Opened<M>,
        cloexec: bool,
    )
        requires room { 1 ≤ self.old.room }
        requires fresh { map.get self.old.files number ≡ None }
        requires taken { IsSome (map.get d.old fd) }
        ensures free { map.get self.old.keys self.old.vacant ≡ None }
        ensures keys { self.new.keys ≡ map.insert self.old.keys self.old.vacant number }
        ensures files { self.new.files ≡ map.insert self.old.files number (record { opened = opened; count = 1 }) }
        ensures room { self.new.room + 1 ≡ self.old.room }
        ensures descs { d.new ≡ map.insert d.old fd (record { key = self.old.vacant; number = number; cloexec = cloexec }) }
    {
        let key = self.vacant_key();
        d.replace(
            fd,
            Descriptor {
                key,
                number,
                cloexec,
            },
        );
        self.add(number, opened);
    }

    /// Keeps two more files under descriptors that are taken already.
    pub(crate) fn add_pair(
        &mut self,
        d: &mut Descs,
        fds: (u32, u32),
        opened: (Opened<M>, Opened<M>),
        number: u64,
        cloexec: bool,
    )
        requires room { 2 ≤ self.old.room }
        requires number { number + 1 < 2 ^ 64 }
        requires fresh { map.get self.old.files number ≡ None }
        requires fresh_next { map.get self.old.files (number + 1) ≡ None }
        requires taken { IsSome (map.get d.old fds.0) }
        requires taken_next { IsSome (map.get d.old fds.1) }
        ensures gives { GivesPair self.old.keys self.new.keys d.old d.new fds.0 fds.1 number cloexec }
        ensures files { self.new.files ≡ map.insert (map.insert self.old.files number (record { opened = opened.0; count = 1 })) (number + 1) (record { opened = opened.1; count = 1 }) }
    {
        let (first, second) = fds;
        let (reader, writer) = opened;
        self.add_under(d, first, number, reader, cloexec);
        self.add_under(d, second, number + 1, writer, cloexec);
    }

    /// Counts one descriptor more for each of these.
    pub(crate) fn raise_all(&mut self, d: &Descs)
        requires named { (fd : ℕ) (x : Descriptor) → map.get d.now fd ≡ Some x → map.get self.old.keys x.key ≡ Some x.number }
        requires counted { (n : ℕ) (h : Counted M) → map.get self.old.files n ≡ Some h → h.count + named_count (meanings d.now) n < 2 ^ 32 }
        ensures keys { self.new.keys ≡ self.old.keys }
        ensures files { self.new.files ≡ mapped (λ n. counted_more (named_count (meanings d.now) n)) self.old.files }
    {
        for fd in 0..d.len() {
            if let Some(descriptor) = d.get(fd) {
                self.raise(descriptor);
            }
        }
    }

    /// Makes the files nameless that remember an entry.
    pub(crate) fn removed(&mut self, dir: Ino, name: &[u8])
        ensures keys { self.new.keys ≡ self.old.keys }
        ensures files { self.new.files ≡ mapped (λ n. on_opened (after_removal dir name.now)) self.old.files }
    {
        forget_all(&mut self.slab, dir, name);
    }

    /// Lets the files follow a rename that took the entry of `new` in `to` away.
    pub(crate) fn renamed(
        &mut self,
        alloc: Global,
        dir: Ino,
        name: &[u8],
        to: Ino,
        new: &[u8],
    ) -> Result<(), NoMemory>
        ensures keys { OnOk result (self.new.keys ≡ self.old.keys) }
        ensures files { OnOk result (self.new.files ≡ mapped (λ n. on_opened (after_rename dir name.now to new.now)) self.old.files) }
        ensures err { OnErr result (self.new ≡ self.old) }
    {
        let copies = copies_for(&self.slab, alloc, dir, name, new)?;
        follow_all(&mut self.slab, copies, dir, name, to, new);
        Ok(())
    }
}

//! The descriptors of a process.
ghost use Rattle.std.specs.Prelude.{◌≡◌, ℕ, ◌<◌, ◌≤◌, vec_len, slice_index_or, Some, None, IsSome, IfSome, IfOk, OnOk, OnErr};
ghost use Rattle.std.specs.FinMap as map;

use kr_tree::below::pr_base::NoMemory;
use kr_tree::below::pr_base::limits::DESCRIPTORS;
use std::alloc::Global;
use std::marker::Model;

/// An open file by the key of its entry, the number that it was opened under, and whether a
/// successful execve closes this descriptor.
///
/// The key finds the open file at once. Its number says which one is meant, also once another one is
/// kept under that key.
#[derive(Clone, Copy)]
pub(crate) struct Descriptor {
    pub(crate) key: usize,
    pub(crate) number: u64,
    pub(crate) cloexec: bool,
}

/// The descriptors of one process, which contracts see as a finite map from numbers below 1,024.
#[derive(Drop)]
pub struct Descs {
    list: Vec<Option<Descriptor>>,
}

impl Model for Descs {
    ghost use Rattle.std.specs.Prelude.{◌≤◌, vec_len};
    ghost use Rattle.std.specs.FinMap as map;
    ghost use Rattle.kr_files.specs.Descriptors.{Descriptors, descriptors_code};
    ghost use Rattle.kr_files.specs.Slots.{slots};

    ghost Value = { Descriptors };

    ghost coded = { descriptors_code };

    ghost view = { λ d. slots d.list.items };

    ghost invariant = { λ d. vec_len d.list ≤ 1024 };
}

impl Descriptor {
    ghost use Rattle.kr_files.specs.Slots.{unnamed};

    /// A descriptor that is taken, and names no open file yet.
    pub(crate) fn unnamed(cloexec: bool) -> Descriptor
        ensures { result ≡ unnamed cloexec }
    {
        Descriptor {
            key: 0,
            number: 0,
            cloexec,
        }
    }
}

// Lengthens the list with free descriptors until it has `len`, all or none of them.
fn widen(list: &mut Vec<Option<Descriptor>>, len: usize) -> Result<(), NoMemory>
    requires { len ≤ 1024 }
    ensures same { (q : ℕ) → slice_index_or list.new.items q None ≡ slice_index_or list.old.items q None }
    ensures ok { OnOk result (len ≤ vec_len list.new) }
    ensures bound { vec_len list.old ≤ 1024 → vec_len list.new ≤ 1024 }
{
    if list.len() < len {
        list.resize(len, None)?;
    }
    Ok(())
}

impl Descs {
    ghost use Rattle.kr_files.specs.Descriptors.{lowest_free, with_cloexec, cloexec_of};
    ghost use Rattle.kr_files.specs.Slots.{unnamed};
    ghost use Rattle.kr_files.specs.Laws.{AreFew};
    ghost use Rattle.kr_tree.specs.pr_base.Maps.{changed};

    /// No descriptor is open. It takes no memory.
    pub fn new(alloc: Global) -> Descs
        ensures { result ≡ map.empty }
    {
        Descs {
            list: Vec::new(alloc),
        }
    }

    /// Whether a successful execve closes a descriptor, `None` where it isn't open.
    pub fn cloexec(&self, fd: u32) -> Option<bool>
        ensures { result ≡ cloexec_of self.now fd }
    {
        Some(self.get(fd)?.cloexec)
    }

    /// Says whether a successful execve closes a descriptor, which is open.
    pub fn set_cloexec(&mut self, fd: u32, on: bool)
        requires { IsSome (map.get self.old fd) }
        ensures { self.new ≡ changed self.old fd (with_cloexec on) }
    {
        if let Some(descriptor) = self.get(fd) {
            self.replace(
                fd,
                Descriptor {
                    cloexec: on,
                    ..descriptor
                },
            );
        }
    }

    /// The descriptor of a number, if it is open.
    pub(crate) fn get(&self, fd: u32) -> Option<Descriptor>
        ensures { result ≡ map.get self.now fd }
    {
        match self.list.get(fd as usize) {
            Some(slot) => *slot,
            None => None,
        }
    }

    /// The lowest free descriptor from a number on, `None` where all below 1,024 are open.
    pub fn lowest_free(&self, from: u32) -> Option<u32>
        ensures free { result ≡ lowest_free self.now from }
        ensures within { IfSome result (λ fd. fd < 1024) }
    {
        for fd in from..DESCRIPTORS {
            if self.get(fd).is_none() {
                return Some(fd);
            }
        }
        None
    }

    /// Sets a descriptor, whether it is open or not.
    pub(crate) fn put(&mut self, fd: u32, descriptor: Descriptor) -> Result<(), NoMemory>
        requires { fd < 1024 }
        ensures ok { OnOk result (self.new ≡ map.insert self.old fd descriptor) }
        ensures err { OnErr result (self.new ≡ self.old) }
    {
        widen(&mut self.list, fd as usize + 1)?;
        self.list[fd as usize] = Some(descriptor);
        Ok(())
    }

    /// Sets a descriptor that is open.
    pub(crate) fn replace(&mut self, fd: u32, descriptor: Descriptor)
        requires { IsSome (map.get self.old fd) }
        ensures { self.new ≡ map.insert self.old fd descriptor }
    {
        if (fd as usize) < self.list.len() {
            self.list[fd as usize] = Some(descriptor);
        }
    }

    /// Takes two descriptors that name nothing yet, both or none of them.
    pub(crate) fn claim_pair(
        &mut self,
        first: u32,
        second: u32,
        cloexec: bool,
    ) -> Result<(), NoMemory>
        requires order { first < second }
        requires below { second < 1024 }
        ensures ok { OnOk result (self.new ≡ map.insert (map.insert self.old first (unnamed cloexec)) second (unnamed cloexec)) }
        ensures err { OnErr result (self.new ≡ self.old) }
    {
        widen(&mut self.list, second as usize + 1)?;
        self.list[first as usize] = Some(Descriptor::unnamed(cloexec));
        self.list[second as usize] = Some(Descriptor::unnamed(cloexec));
        Ok(())
    }

    /// What [`descriptors_are_few`](crate::laws::descriptors_are_few) says.
    pub(crate) fn are_few(&self)
        ensures { AreFew self.now }
    {
        // For the proof alone: what holds of each `Descs`.
        let _ = &self.list;
    }

    /// From this number on no descriptor is open.
    pub(crate) fn len(&self) -> u32
        ensures free { (q : ℕ) → result ≤ q → map.get self.now q ≡ None }
        ensures bound { result ≤ 1024 }
    {
        self.list.len() as u32
    }

    /// Frees a descriptor.
    pub(crate) fn clear(&mut self, fd: u32)
        ensures { self.new ≡ map.remove self.old fd }
    {
        if (fd as usize) < self.list.len() {
            self.list[fd as usize] = None;
        }
    }

    /// A copy of all descriptors.
    pub(crate) fn copy(&self) -> Result<Descs, NoMemory>
        ensures { IfOk result (λ copy. copy ≡ self.now) }
    {
        Ok(Descs {
            list: self.list.clone()?,
        })
    }
}

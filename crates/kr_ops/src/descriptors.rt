//! Changes of the descriptors of a process, and of what is open under them.
ghost use Rattle.std.specs.Prelude.{◌≡◌, ◌<◌, ℕ, length, slice_index_or as get_or};
ghost use Rattle.std.specs.Option.{option_and_then};
ghost use Rattle.law_lawful.specs.kr_files.Files.{opened_at};
ghost use Rattle.law_lawful.specs.kr_model.Change.{CloseDescriptor, Seek, SetAppend, SetCloexec};
ghost use Rattle.kr_ops.specs.declared.state.Process.{Process};
ghost use Rattle.kr_ops.specs.Making.{Makes};
ghost use Rattle.kr_ops.specs.Sound.{IsServed, IsSound};

use crate::holding::{place_of, release};
use crate::state::State;
use law_lawful::below::Place;

impl<T: Copy, const M: u8> State<T, M> {
    /// Says whether a successful execve(2) closes a descriptor of a process, if it is open.
    pub fn set_cloexec(&mut self, pid: u32, fd: u32, on: bool)
        requires { IsSound self.old }
        ensures makes { Makes pid (SetCloexec fd on) self.old self.new }
        ensures served { IsServed self.new }
    {
        let Some(k) = self.index_of(pid) else {
            return;
        };
        let descs = &mut self.living[k].descs;
        if descs.cloexec(fd).is_some() {
            descs.set_cloexec(fd, on);
        }
    }

    /// Moves the offset of what is open under a descriptor of a process, if it is open.
    pub fn seek(&mut self, pid: u32, fd: u32, at: u64)
        requires { IsSound self.old }
        ensures makes { Makes pid (Seek fd at) self.old self.new }
        ensures served { IsServed self.new }
    {
        let Some(k) = self.index_of(pid) else {
            return;
        };
        let descs = &self.living[k].descs;
        if descs.cloexec(fd).is_some() {
            self.files.seek(descs, fd, at);
        }
    }

    /// Says whether each write to what is open under a descriptor of a process goes to the end, if it is open.
    pub fn set_append(&mut self, pid: u32, fd: u32, on: bool)
        requires { IsSound self.old }
        ensures makes { Makes pid (SetAppend fd on) self.old self.new }
        ensures served { IsServed self.new }
    {
        let Some(k) = self.index_of(pid) else {
            return;
        };
        let descs = &self.living[k].descs;
        if descs.cloexec(fd).is_some() {
            self.files.set_append(descs, fd, on);
        }
    }

    /// Closes a descriptor of a process, if it is open. The last one of an open file takes that away.
    pub fn close(&mut self, pid: u32, fd: u32)
        requires { IsSound self.old }
        ensures makes { Makes pid (CloseDescriptor fd) self.old self.new }
        ensures served { IsServed self.new }
    {
        let Some(k) = self.index_of(pid) else {
            return;
        };
        if self.living[k].descs.cloexec(fd).is_none() {
            return;
        }
        let place = self.place_at(k, fd);
        self.files.close(&mut self.living[k].descs, fd);
        release(&mut self.tree, place);
    }

    /// The place of what is open under a descriptor of the process at an index.
    pub(crate) fn place_at(&self, k: usize, fd: u32) -> Option<Place<T>>
        requires sound { IsSound self.now }
        requires within { k < length self.now.living.items }
        ensures { (p : Process T M) → p ≡ get_or self.now.living.items k p → result ≡ option_and_then (λ o. o.place) (opened_at self.now.files p.descs fd) }
    {
        place_of(&self.files, &self.living[k].descs, fd)
    }
}

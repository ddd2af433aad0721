//! Descriptors that come: files that are opened, copies, and pipes.
ghost use Rattle.std.specs.Prelude.{◌≡◌, ◌≢◌, ◌↔◌, ◌+◌, ◌<◌, ◌^◌, ℕ, Some, None, Err, false, IsSome, IsTrue, IfSome, IfOk, OnErr, OnOk};
ghost use Rattle.law_lawful.specs.kr_tree.Tree.{inode};
ghost use Rattle.law_lawful.specs.kr_files.Opened.{is_no_end};
ghost use Rattle.law_lawful.specs.kr_model.Change.{CopyDescriptor, MakePipe};
ghost use Rattle.law_lawful.specs.kr_model.State.{inode_of as host_inode, named};
ghost use Rattle.kr_ops.specs.Meaning.{meaning};
ghost use Rattle.kr_ops.specs.Making.{IsAsBefore, Makes};
ghost use Rattle.kr_ops.specs.Opening.{lowest_of, pair_of, takes_pipe_of, Opens};
ghost use Rattle.kr_ops.specs.Sound.{IsServed, IsSound, IsSoundFor};

use crate::holding::{hold, release};
use crate::state::State;
use law_lawful::below::{FilesRefusal, NoMemory, Opened};

impl<T: Copy, const M: u8> State<T, M> {
    /// Opens what is no end of a pipe under the lowest free descriptor of a living process; Full exactly where none is free.
    pub fn open(&mut self, pid: u32, opened: Opened<T>, cloexec: bool) -> Result<u32, FilesRefusal>
        requires caller { IsSoundFor pid self.old }
        requires no_end { IsTrue (is_no_end opened.what) }
        requires numbers { self.old.files.table.last_file + 1 < 2 ^ 64 }
        requires there { IfSome opened.place (λ p. IsSome (inode self.old.tree (host_inode p.host))) }
        ensures full { (result ≡ Err FilesRefusal.Full) ↔ (lowest_of pid 0 (meaning self.old) ≡ None) }
        ensures lowest { IfOk result (λ fd. lowest_of pid 0 (meaning self.old) ≡ Some fd) }
        ensures makes { IfOk result (λ fd. Opens pid fd cloexec opened self.old self.new) }
        ensures served { OnOk result (IsServed self.new) }
        ensures err { OnErr result (IsAsBefore self.old self.new) }
    {
        let Some(k) = self.index_of(pid) else {
            unreachable!();
        };
        let place = opened.place;
        let fd = self
            .files
            .open(&mut self.living[k].descs, opened, 0, cloexec)?;
        hold(&mut self.tree, place);
        Ok(fd)
    }

    /// Makes the lowest free descriptor from a number on a copy of one that is open; Full exactly where none is free.
    pub fn copy(&mut self, pid: u32, fd: u32, from: u32, cloexec: bool) -> Result<u32, FilesRefusal>
        requires sound { IsSound self.old }
        requires is_open { IsSome (named pid fd (meaning self.old)) }
        ensures full { (result ≡ Err FilesRefusal.Full) ↔ (lowest_of pid from (meaning self.old) ≡ None) }
        ensures lowest { IfOk result (λ to. lowest_of pid from (meaning self.old) ≡ Some to) }
        ensures makes { IfOk result (λ to. Makes pid (CopyDescriptor fd to cloexec) self.old self.new) }
        ensures served { OnOk result (IsServed self.new) }
        ensures err { OnErr result (IsAsBefore self.old self.new) }
    {
        let Some(k) = self.index_of(pid) else {
            unreachable!();
        };
        let place = self.place_at(k, fd);
        let to = self
            .files
            .dup(&mut self.living[k].descs, fd, from, cloexec)?;
        hold(&mut self.tree, place);
        Ok(to)
    }

    /// Makes a descriptor a copy of another one, which is open. What it meant before is closed.
    pub fn copy_onto(&mut self, pid: u32, fd: u32, to: u32, cloexec: bool) -> Result<(), NoMemory>
        requires sound { IsSound self.old }
        requires is_open { IsSome (named pid fd (meaning self.old)) }
        requires below { to < 1024 }
        requires other { to ≢ fd }
        ensures makes { OnOk result (Makes pid (CopyDescriptor fd to cloexec) self.old self.new) }
        ensures served { OnOk result (IsServed self.new) }
    {
        let Some(k) = self.index_of(pid) else {
            unreachable!();
        };
        let copied = self.place_at(k, fd);
        let closed = self.place_at(k, to);
        self.files
            .dup_to(&mut self.living[k].descs, fd, to, cloexec)?;
        // The new descriptor holds before the old one lets go, so what both stand at stays.
        hold(&mut self.tree, copied);
        release(&mut self.tree, closed);
        Ok(())
    }

    /// Makes a pipe, and opens its ends under the two lowest free descriptors of a living process, the reader first; Full exactly
    /// where fewer are free, or there are as many pipes as there may be.
    pub fn make_pipe(&mut self, pid: u32, cloexec: bool) -> Result<(u32, u32), FilesRefusal>
        requires caller { IsSoundFor pid self.old }
        requires files { self.old.files.table.last_file + 2 < 2 ^ 64 }
        requires pipes { self.old.files.table.last_pipe + 1 < 2 ^ 32 }
        ensures full { (result ≡ Err FilesRefusal.Full) ↔ (takes_pipe_of pid (meaning self.old) ≡ false) }
        ensures lowest { IfOk result (λ fds. pair_of pid (meaning self.old) ≡ Some (fds.0, fds.1)) }
        ensures makes { IfOk result (λ fds. Makes pid (MakePipe fds.0 fds.1 cloexec) self.old self.new) }
        ensures served { OnOk result (IsServed self.new) }
        ensures err { OnErr result (IsAsBefore self.old self.new) }
    {
        let Some(k) = self.index_of(pid) else {
            unreachable!();
        };
        let (first, second) = self.files.pipe(&mut self.living[k].descs, cloexec)?;
        Ok((first, second))
    }
}

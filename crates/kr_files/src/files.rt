//! The open files of all processes, and pipes.
ghost use Rattle.std.specs.Prelude.{◌≡◌, ◌≢◌, ◌↔◌, ◌<◌, ◌+◌, ◌^◌, length, false, Some, None, Ok, Err, IsTrue, IsSome, IfOk, OnOk, OnErr};
ghost use Rattle.std.specs.Option.{option_copied};
ghost use Rattle.std.specs.FinMap as map;

use crate::descs::{Descriptor, Descs};
use crate::open_files::OpenFiles;
use crate::opened::{FilesRefusal, Moved, Opened, PipeState, Wrote};
use crate::pipes::Pipes;
use kr_tree::Ino;
use kr_tree::below::pr_base::NoMemory;
use std::alloc::Global;
use std::marker::Model;

/// The open files of all processes, and the pipes among them. An open file is a file description of
/// open(2): what all copies of a descriptor share.
///
/// Each open file has a number, from 1 on, and so has each pipe. No number is used again.
#[derive(Drop)]
pub struct Files<M> {
    open: OpenFiles<M>,
    pipes: Pipes,
    last_file: u64,
    last_pipe: u32,
    alloc: Global,
}

/// How many pipes there may be.
const PIPES: usize = 4096;

impl<M> Model for Files<M> {
    ghost use Rattle.std.specs.Coded.{codes};
    ghost use Rattle.kr_files.specs.Files.{Kept, kept_code};
    ghost use Rattle.kr_files.specs.Sound.{kept_of, IsSound};

    ghost Value = { Kept M };

    ghost coded = { kept_code (Prim.hlevel (codes, M.code)) };

    ghost view = { λ f. kept_of f.open f.pipes f.last_file f.last_pipe };

    ghost invariant = { λ f. IsSound f.open.files f.pipes f.last_file f.last_pipe };
}

impl<M: Copy> Files<M> {
    ghost use Rattle.kr_files.specs.Descriptors.{lowest_free, lowest_pair, with_copy_at, meanings};
    ghost use Rattle.kr_files.specs.Files.{empty_table, with_all_opened, with_file, with_pipe, with_copies, FitsCopies, GivesPair, has_reader, reads_wait, read_answer, write_answer, writes_wait, takes_pipe, pipe_after_read, pipe_after_write, pipe_state_of, on_table, with_opened, at_offset, with_append, NamesOpenFiles, opened_at, count_at, by_descriptor, copied, released, Gives};
    ghost use Rattle.kr_files.specs.Opened.{is_no_end, after_removal, after_rename};
    ghost use Rattle.kr_files.specs.Laws.{IsKept};

    /// Nothing is open. It takes no memory.
    pub fn new(alloc: Global) -> Files<M>
        ensures { result ≡ record { keys = map.empty; table = empty_table } }
    {
        Files {
            open: OpenFiles::new(alloc),
            pipes: Pipes::new(alloc),
            last_file: 0,
            last_pipe: 0,
            alloc,
        }
    }

    /// The last number that an open file got, 0 before the first.
    pub fn last_file(&self) -> u64
        ensures { result ≡ self.now.table.last_file }
    {
        self.last_file
    }

    /// The last number that a pipe got, 0 before the first.
    pub fn last_pipe(&self) -> u32
        ensures { result ≡ self.now.table.last_pipe }
    {
        self.last_pipe
    }

    /// What [`files_are_kept`](crate::laws::files_are_kept) says.
    pub(crate) fn are_kept(&self)
        ensures { IsKept self.now }
    {
        self.open.are_kept();
    }

    /// Opens what is no end of a pipe, under the lowest free descriptor from `from` on.
    pub fn open(
        &mut self,
        d: &mut Descs,
        o: Opened<M>,
        from: u32,
        cloexec: bool,
    ) -> Result<u32, FilesRefusal>
        requires no_end { IsTrue (is_no_end o.what) }
        requires numbers { self.old.table.last_file + 1 < 2 ^ 64 }
        ensures full { (result ≡ Err FilesRefusal.Full) ↔ (lowest_free d.old from ≡ None) }
        ensures lowest { IfOk result (λ fd. lowest_free d.old from ≡ Some fd) }
        ensures table { OnOk result (self.new.table ≡ with_file o self.old.table) }
        ensures gives { IfOk result (λ fd. Gives self.old.keys self.new.keys d.old d.new fd (self.old.table.last_file + 1) cloexec) }
        ensures err { OnErr result (self.new ≡ self.old) }
        ensures err_descs { OnErr result (d.new ≡ d.old) }
    {
        let Some(fd) = d.lowest_free(from) else {
            return Err(FilesRefusal::Full);
        };
        self.open.reserve(1)?;
        let number = self.last_file + 1;
        let key = self.open.vacant_key();
        d.put(
            fd,
            Descriptor {
                key,
                number,
                cloexec,
            },
        )?;
        self.open.add(number, o);
        self.last_file = number;
        Ok(fd)
    }

    /// Makes the lowest free descriptor from `from` on a copy of `fd`, which is open.
    pub fn dup(
        &mut self,
        d: &mut Descs,
        fd: u32,
        from: u32,
        cloexec: bool,
    ) -> Result<u32, FilesRefusal>
        requires is_open { IsSome (map.get d.old fd) }
        requires names { NamesOpenFiles self.old d.old }
        requires counts { count_at self.old d.old fd + 1 < 2 ^ 32 }
        ensures full { (result ≡ Err FilesRefusal.Full) ↔ (lowest_free d.old from ≡ None) }
        ensures lowest { IfOk result (λ to. lowest_free d.old from ≡ Some to) }
        ensures files { OnOk result (self.new ≡ by_descriptor d.old fd copied self.old) }
        ensures descs { IfOk result (λ to. d.new ≡ with_copy_at d.old fd to cloexec) }
        ensures err { OnErr result (self.new ≡ self.old) }
        ensures err_descs { OnErr result (d.new ≡ d.old) }
    {
        let Some(to) = d.lowest_free(from) else {
            return Err(FilesRefusal::Full);
        };
        let original = d.get(fd).unwrap();
        d.put(
            to,
            Descriptor {
                cloexec,
                ..original
            },
        )?;
        self.open.raise(original);
        Ok(to)
    }

    /// Makes a descriptor a copy of `fd`, which is open. Where it was open before, that one is closed.
    pub fn dup_to(&mut self, d: &mut Descs, fd: u32, to: u32, cloexec: bool) -> Result<(), NoMemory>
        requires is_open { IsSome (map.get d.old fd) }
        requires below { to < 1024 }
        requires other { to ≢ fd }
        requires names { NamesOpenFiles self.old d.old }
        requires counts { count_at self.old d.old fd + 1 < 2 ^ 32 }
        ensures files { OnOk result (self.new ≡ by_descriptor d.old to released (by_descriptor d.old fd copied self.old)) }
        ensures descs { OnOk result (d.new ≡ with_copy_at d.old fd to cloexec) }
        ensures err { OnErr result (self.new ≡ self.old) }
        ensures err_descs { OnErr result (d.new ≡ d.old) }
    {
        let original = d.get(fd).unwrap();
        let replaced = d.get(to);
        d.put(
            to,
            Descriptor {
                cloexec,
                ..original
            },
        )?;
        self.open.raise(original);
        if let Some(replaced) = replaced {
            self.release(replaced);
        }
        Ok(())
    }

    /// Whether there is room for one more pipe, which is where `pipe` doesn't answer Full.
    pub fn takes_pipe(&self, d: &Descs) -> bool
        ensures { result ≡ takes_pipe self.now.table d.now }
    {
        match d.lowest_free(0) {
            Some(first) => d.lowest_free(first + 1).is_some() && self.pipes.len() < PIPES,
            None => false,
        }
    }

    /// Makes a pipe, and opens its ends under the two lowest free descriptors, the reader first.
    pub fn pipe(&mut self, d: &mut Descs, cloexec: bool) -> Result<(u32, u32), FilesRefusal>
        requires files { self.old.table.last_file + 2 < 2 ^ 64 }
        requires pipes { self.old.table.last_pipe + 1 < 2 ^ 32 }
        ensures full { (result ≡ Err FilesRefusal.Full) ↔ (takes_pipe self.old.table d.old ≡ false) }
        ensures lowest { IfOk result (λ fds. lowest_pair d.old ≡ Some (fds.0, fds.1)) }
        ensures table { OnOk result (self.new.table ≡ with_pipe self.old.table) }
        ensures gives { IfOk result (λ fds. GivesPair self.old.keys self.new.keys d.old d.new fds.0 fds.1 (self.old.table.last_file + 1) cloexec) }
        ensures err { OnErr result (self.new ≡ self.old) }
        ensures err_descs { OnErr result (d.new ≡ d.old) }
    {
        let Some(first) = d.lowest_free(0) else {
            return Err(FilesRefusal::Full);
        };
        let Some(second) = d.lowest_free(first + 1) else {
            return Err(FilesRefusal::Full);
        };
        if self.pipes.len() >= PIPES {
            return Err(FilesRefusal::Full);
        }
        if self.open.reserve(2).is_err() {
            return Err(FilesRefusal::NoMemory);
        }
        let pipe = self.last_pipe + 1;
        if self.pipes.add(pipe).is_err() {
            return Err(FilesRefusal::NoMemory);
        }
        if d.claim_pair(first, second, cloexec).is_err() {
            self.pipes.remove(pipe);
            return Err(FilesRefusal::NoMemory);
        }
        let number = self.last_file + 1;
        let ends = (
            Opened::reader(self.alloc, pipe),
            Opened::writer(self.alloc, pipe),
        );
        self.open
            .add_pair(d, (first, second), ends, number, cloexec);
        self.last_file = number + 1;
        self.last_pipe = pipe;
        Ok((first, second))
    }

    /// Makes the open files nameless that remember an entry, which was removed.
    pub fn removed(&mut self, dir: Ino, name: &[u8])
        ensures { self.new ≡ on_table (with_all_opened (after_removal dir name.now)) self.old }
    {
        self.open.removed(dir, name);
    }

    /// Lets the open files follow a rename: those that remember the entry that was replaced, `new` in
    /// `to`, get nameless, and then those that remember the old one, `name` in `dir`, remember the new.
    pub fn renamed(&mut self, dir: Ino, name: &[u8], to: Ino, new: &[u8]) -> Result<(), NoMemory>
        ensures ok { OnOk result (self.new ≡ on_table (with_all_opened (after_rename dir name.now to new.now)) self.old) }
        ensures err { OnErr result (self.new ≡ self.old) }
    {
        self.open.renamed(self.alloc, dir, name, to, new)?;
        Ok(())
    }

    /// A copy of all descriptors, for a new process.
    pub fn fork(&mut self, d: &Descs) -> Result<Descs, NoMemory>
        requires names { NamesOpenFiles self.old d.now }
        requires counts { FitsCopies self.old d.now }
        ensures copies { IfOk result (λ copy. copy ≡ d.now) }
        ensures files { OnOk result (self.new ≡ on_table (with_copies (meanings d.now)) self.old) }
        ensures err { OnErr result (self.new ≡ self.old) }
    {
        let copy = d.copy()?;
        self.open.raise_all(d);
        Ok(copy)
    }

    /// Takes the oldest bytes out of a pipe, as many as there are up to `n`.
    pub fn pipe_read(&mut self, pipe: u32, n: usize) -> Result<Moved, NoMemory>
        requires exists { IsSome (map.get self.old.table.pipes pipe) }
        requires asked { 0 < n }
        ensures waits { (result ≡ Ok Moved.NotReady) ↔ IsTrue (reads_wait self.old.table pipe) }
        ensures answer { IfOk result (λ moved. read_answer self.old.table pipe n ≡ Some moved) }
        ensures after { OnOk result (self.new ≡ on_table (pipe_after_read pipe n) self.old) }
        ensures err { OnErr result (self.new ≡ self.old) }
    {
        if self.pipes.waits_for_writer(pipe) {
            return Ok(Moved::NotReady);
        }
        Ok(Moved::Bytes(self.pipes.take(pipe, n)?))
    }

    /// Puts bytes into a pipe, as many as there is room for.
    pub fn pipe_write(&mut self, pipe: u32, b: &[u8]) -> Result<Wrote, NoMemory>
        requires exists { IsSome (map.get self.old.table.pipes pipe) }
        requires asked { 0 < length b.now }
        ensures waits { (result ≡ Ok Wrote.NotReady) ↔ IsTrue (writes_wait self.old.table pipe) }
        ensures no_reader { (result ≡ Ok Wrote.NoReader) ↔ (has_reader self.old.table pipe ≡ false) }
        ensures answer { IfOk result (λ wrote. write_answer self.old.table pipe b.now ≡ Some wrote) }
        ensures after { OnOk result (self.new ≡ on_table (pipe_after_write pipe b.now) self.old) }
        ensures err { OnErr result (self.new ≡ self.old) }
    {
        if !self.pipes.has_reader(pipe) {
            return Ok(Wrote::NoReader);
        }
        if self.pipes.is_full(pipe) {
            return Ok(Wrote::NotReady);
        }
        Ok(Wrote::Took(self.pipes.put(pipe, b)?))
    }

    /// How a pipe stands, `None` where there is no such pipe.
    pub fn pipe_state(&self, pipe: u32) -> Option<PipeState>
        ensures { result ≡ pipe_state_of self.now.table pipe }
    {
        match self.pipes.get(pipe) {
            Some(held) => Some(PipeState {
                bytes: held.len() as u32,
                reader: held.has_reader(),
                writer: held.has_writer(),
            }),
            None => None,
        }
    }

    /// Closes a descriptor, which is open. The last one of an open file takes it away, and a pipe goes
    /// with its last end.
    pub fn close(&mut self, d: &mut Descs, fd: u32)
        requires is_open { IsSome (map.get d.old fd) }
        requires names { NamesOpenFiles self.old d.old }
        ensures files { self.new ≡ by_descriptor d.old fd released self.old }
        ensures descs { d.new ≡ map.remove d.old fd }
    {
        let descriptor = d.get(fd).unwrap();
        d.clear(fd);
        self.release(descriptor);
    }

    // Takes a descriptor away from what it names.
    fn release(&mut self, descriptor: Descriptor)
        requires { map.get self.old.keys descriptor.key ≡ Some descriptor.number }
        ensures { self.new ≡ released descriptor self.old }
    {
        if let Some(what) = self.open.lower(descriptor) {
            self.pipes.end(what);
        }
    }

    /// What is open under a descriptor, `None` where it isn't open.
    pub fn get(&self, d: &Descs, fd: u32) -> Option<&Opened<M>>
        requires { NamesOpenFiles self.now d.now }
        ensures value { option_copied result ≡ opened_at self.now d.now fd }
        ensures found { IsSome result ↔ IsSome (map.get d.now fd) }
    {
        match d.get(fd) {
            Some(descriptor) => self.open.get(descriptor),
            None => None,
        }
    }

    /// Moves the offset of what is open under a descriptor.
    pub fn seek(&mut self, d: &Descs, fd: u32, at: u64)
        requires is_open { IsSome (map.get d.now fd) }
        requires names { NamesOpenFiles self.old d.now }
        ensures { self.new ≡ by_descriptor d.now fd (λ x. on_table (with_opened x.number (at_offset at))) self.old }
    {
        if let Some(descriptor) = d.get(fd) {
            self.open.seek(descriptor, at);
        }
    }

    /// Says whether each write of what is open under a descriptor goes to the end.
    pub fn set_append(&mut self, d: &Descs, fd: u32, on: bool)
        requires is_open { IsSome (map.get d.now fd) }
        requires names { NamesOpenFiles self.old d.now }
        ensures { self.new ≡ by_descriptor d.now fd (λ x. on_table (with_opened x.number (with_append on))) self.old }
    {
        if let Some(descriptor) = d.get(fd) {
            self.open.set_append(descriptor, on);
        }
    }
}

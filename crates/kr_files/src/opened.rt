//! What is open, and what a call on it answers.

use kr_tree::below::pr_base::{Bytes, NoMemory};
use kr_tree::{Ino, Place};
use std::alloc::Global;

/// An open file description: what open(2) makes, and what every copy of its descriptor shares.
#[derive(Drop)]
pub struct Opened<M> {
    /// The file or directory that is open. A pipe and the console have none.
    pub place: Option<Place<M>>,
    /// The directory of the entry by which the file was opened, 0 where no entry is remembered.
    pub dir: Ino,
    /// The name of that entry, empty where none is remembered.
    pub name: Bytes,
    pub what: What,
    pub read: bool,
    pub write: bool,
    pub append: bool,
    /// The offset in bytes at which the next read or write begins, or the serial of the last entry
    /// that was read of a directory.
    pub at: u64,
}

impl<M: Copy> Opened<M> {
    ghost use Rattle.std.specs.Prelude.{◌≡◌, true, false};
    ghost use Rattle.kr_files.specs.Opened.{pipe_end};
    ghost use Rattle.kr_files.specs.declared.opened.What.TheVariants.{PipeRead as ReadEnd, PipeWrite as WriteEnd};

    /// The end of a pipe that is read.
    pub(crate) fn reader(alloc: Global, pipe: u32) -> Opened<M>
        ensures { result ≡ pipe_end (ReadEnd pipe) true false }
    {
        Opened {
            place: None,
            dir: 0,
            name: Bytes::new(alloc),
            what: What::PipeRead(pipe),
            read: true,
            write: false,
            append: false,
            at: 0,
        }
    }

    /// The end of a pipe that is written.
    pub(crate) fn writer(alloc: Global, pipe: u32) -> Opened<M>
        ensures { result ≡ pipe_end (WriteEnd pipe) false true }
    {
        Opened {
            place: None,
            dir: 0,
            name: Bytes::new(alloc),
            what: What::PipeWrite(pipe),
            read: false,
            write: true,
            append: false,
            at: 0,
        }
    }
}

impl<M: Copy> Opened<M> {
    ghost use Rattle.std.specs.Prelude.{◌≡◌, IsTrue, Some};
    ghost use Rattle.kr_files.specs.Opened.{remembers, named_at, after_removal, after_rename};

    /// Whether the entry of a name in a directory is remembered.
    pub(crate) fn remembers(&self, dir: Ino, name: &[u8]) -> bool
        ensures { result ≡ remembers dir name.now self.now }
    {
        !self.name.is_empty() && self.dir == dir && self.name.as_slice() == name
    }

    /// Forgets the entry of a name in a directory, if it is the one that is remembered.
    pub(crate) fn forget(&mut self, dir: Ino, name: &[u8])
        ensures { self.new ≡ after_removal dir name.now self.old }
    {
        if self.remembers(dir, name) {
            self.dir = 0;
            self.name.clear();
        }
    }

    /// Remembers another entry.
    fn remember(&mut self, dir: Ino, name: Bytes)
        ensures { self.new ≡ named_at dir name self.old }
    {
        self.dir = if name.is_empty() { 0 } else { dir };
        self.name = name;
    }

    /// Follows a rename that took the entry of `new` in `to` away. `copy` is one of `new`, where the
    /// entry that was renamed is remembered.
    pub(crate) fn follow(&mut self, dir: Ino, name: &[u8], to: Ino, new: &[u8], copy: Option<Bytes>)
        requires { IsTrue (remembers dir name.now self.old) → copy ≡ Some new.now }
        ensures { self.new ≡ after_rename dir name.now to new.now self.old }
    {
        self.forget(to, new);
        if self.remembers(dir, name) {
            match copy {
                Some(copy) => self.remember(to, copy),
                None => unreachable!(),
            }
        }
    }
}

/// The kind of what is open. A `u32` is the number of a pipe.
#[derive(Clone, Copy)]
pub enum What {
    File,
    Dir,
    /// The console's input.
    In,
    /// The console's output.
    Out,
    /// The console's error output.
    Err,
    /// The end of a pipe that is read.
    PipeRead(u32),
    /// The end of a pipe that is written.
    PipeWrite(u32),
}

/// Why no descriptor was given.
#[derive(Clone, Copy)]
pub enum FilesRefusal {
    /// Too few descriptors are free, or there are as many pipes as there may be.
    Full,
    NoMemory,
}

impl From<NoMemory> for FilesRefusal {
    ghost use Rattle.kr_files.specs.declared.opened.FilesRefusal.TheVariants.{NoMemory as Wanting};
    ghost use Rattle.std.specs.Prelude.{◌≡◌};

    ghost from_gives = { λ _ refusal. refusal ≡ Wanting };

    fn from(_error: NoMemory) -> FilesRefusal {
        FilesRefusal::NoMemory
    }
}

/// What a read of a pipe answers.
#[derive(Drop)]
pub enum Moved {
    /// The bytes that were taken out, none where the pipe is empty and nobody can write to it.
    Bytes(Bytes),
    /// The pipe is empty, and somebody can still write to it.
    NotReady,
}

/// What a write to a pipe answers.
#[derive(Clone, Copy)]
pub enum Wrote {
    /// How many of the bytes were put in.
    Took(u32),
    /// The pipe is full, and somebody can still read from it.
    NotReady,
    /// Nobody can read from the pipe.
    NoReader,
}

/// How a pipe stands.
#[derive(Clone, Copy)]
pub struct PipeState {
    /// How many bytes it holds.
    pub bytes: u32,
    /// Whether its end for reading is open.
    pub reader: bool,
    /// Whether its end for writing is open.
    pub writer: bool,
}

//! All pipes.
ghost use Rattle.std.specs.Prelude.{◌≡◌, ◌-◌, ◌++◌, nat_le, length, take, drop, min, Some, IsSome, OnOk, OnErr, IfOk};
ghost use Rattle.std.specs.Option.{option_copied, option_map};
ghost use Rattle.std.specs.FinMap as map;

use crate::opened::What;
use crate::pipe::Pipe;
use kr_tree::below::pr_base::limits::PIPE_BYTES;
use kr_tree::below::pr_base::{Bytes, NoMemory};
use std::alloc::Global;
use std::collections::BTreeMap;
use std::marker::Model;

/// The pipes by their numbers. Each has at least one open end.
#[derive(Drop)]
pub(crate) struct Pipes {
    pipes: BTreeMap<u32, Pipe>,
    alloc: Global,
}

impl Model for Pipes {
    ghost use Rattle.std.specs.FinMap as map;
    ghost use Rattle.kr_files.specs.StoredPipes.{PipeTable, pipe_table_code};

    ghost Value = { PipeTable };

    ghost coded = { pipe_table_code };

    ghost view = { λ p. map.from_entries p.pipes.entries };
}

impl Pipes {
    ghost use Rattle.kr_tree.specs.pr_base.Maps.{changed};
    ghost use Rattle.kr_files.specs.Pipes.{read_waits};
    ghost use Rattle.kr_files.specs.StoredPipes.{fresh_pipe, holding, reader_open, writer_open, reader_gone, writer_gone, end_gone};

    /// No pipes. It takes no memory.
    pub(crate) fn new(alloc: Global) -> Pipes
        ensures { result ≡ map.empty }
    {
        Pipes {
            pipes: BTreeMap::new(alloc),
            alloc,
        }
    }

    /// How many pipes there are.
    pub(crate) fn len(&self) -> usize
        ensures { result ≡ map.len self.now }
    {
        self.pipes.len()
    }

    /// The pipe of a number.
    pub(crate) fn get(&self, number: u32) -> Option<&Pipe>
        ensures { option_copied result ≡ map.get self.now number }
    {
        self.pipes.get(&number)
    }

    /// Adds an empty pipe with both ends open.
    pub(crate) fn add(&mut self, number: u32) -> Result<(), NoMemory>
        ensures ok { OnOk result (self.new ≡ map.insert self.old number fresh_pipe) }
        ensures err { OnErr result (self.new ≡ self.old) }
    {
        self.pipes.insert(number, Pipe::new(self.alloc))?;
        Ok(())
    }

    /// Takes a pipe away.
    pub(crate) fn remove(&mut self, number: u32)
        ensures { self.new ≡ map.remove self.old number }
    {
        let _pipe = self.pipes.remove(&number);
    }

    /// Takes the oldest bytes out of a pipe, as many as there are up to `n`.
    pub(crate) fn take(&mut self, number: u32, n: usize) -> Result<Bytes, NoMemory>
        requires { IsSome (map.get self.old number) }
        ensures bytes { IfOk result (λ bytes. option_map (λ p. take n p.bytes) (map.get self.old number) ≡ Some bytes) }
        ensures ok { OnOk result (self.new ≡ changed self.old number (λ p. holding (drop n p.bytes) p)) }
        ensures err { OnErr result (self.new ≡ self.old) }
    {
        let pipe = self.pipes.get_mut(&number).unwrap();
        pipe.take(n)
    }

    /// Puts as many of the bytes into a pipe as there is room for, and tells how many.
    pub(crate) fn put(&mut self, number: u32, b: &[u8]) -> Result<u32, NoMemory>
        requires { IsSome (map.get self.old number) }
        ensures count { IfOk result (λ count. option_map (λ p. min (length b.now) (65536 - length p.bytes)) (map.get self.old number) ≡ Some count) }
        ensures ok { OnOk result (self.new ≡ changed self.old number (λ p. holding (p.bytes ++ take (65536 - length p.bytes) b.now) p)) }
        ensures err { OnErr result (self.new ≡ self.old) }
    {
        let pipe = self.pipes.get_mut(&number).unwrap();
        pipe.put(b)
    }

    /// Whether a pipe's end for reading is open.
    pub(crate) fn has_reader(&self, number: u32) -> bool
        ensures { result ≡ reader_open number self.now }
    {
        match self.get(number) {
            Some(pipe) => pipe.has_reader(),
            None => false,
        }
    }

    /// Whether a pipe's end for writing is open.
    pub(crate) fn has_writer(&self, number: u32) -> bool
        ensures { result ≡ writer_open number self.now }
    {
        match self.get(number) {
            Some(pipe) => pipe.has_writer(),
            None => false,
        }
    }

    /// Whether a read of a pipe waits.
    pub(crate) fn waits_for_writer(&self, number: u32) -> bool
        requires { IsSome (map.get self.now number) }
        ensures { option_map (λ p. read_waits p.bytes p.writer) (map.get self.now number) ≡ Some result }
    {
        let pipe = self.get(number).unwrap();
        pipe.waits_for_writer()
    }

    /// Whether a pipe has no room for another byte.
    pub(crate) fn is_full(&self, number: u32) -> bool
        requires { IsSome (map.get self.now number) }
        ensures { option_map (λ p. nat_le 65536 (length p.bytes)) (map.get self.now number) ≡ Some result }
    {
        let pipe = self.get(number).unwrap();
        pipe.len() >= PIPE_BYTES
    }

    /// Closes a pipe's end for reading. A pipe without ends goes.
    pub(crate) fn end_reader(&mut self, number: u32)
        ensures { self.new ≡ reader_gone number self.old }
    {
        if !self.has_writer(number) {
            self.remove(number);
        } else if let Some(pipe) = self.pipes.get_mut(&number) {
            pipe.end_reader();
        }
    }

    /// Closes a pipe's end for writing. A pipe without ends goes.
    pub(crate) fn end_writer(&mut self, number: u32)
        ensures { self.new ≡ writer_gone number self.old }
    {
        if !self.has_reader(number) {
            self.remove(number);
        } else if let Some(pipe) = self.pipes.get_mut(&number) {
            pipe.end_writer();
        }
    }

    /// Closes the end of a pipe that an open file of this kind was, if it was one.
    pub(crate) fn end(&mut self, what: What)
        ensures { self.new ≡ end_gone what self.old }
    {
        match what {
            What::PipeRead(number) => self.end_reader(number),
            What::PipeWrite(number) => self.end_writer(number),
            What::File | What::Dir | What::In | What::Out | What::Err => {}
        }
    }
}

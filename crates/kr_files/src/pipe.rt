//! One pipe.
ghost use Rattle.std.specs.Prelude.{◌≡◌, ◌+◌, ◌-◌, ◌<◌, ◌≤◌, [], ◌++◌, length, take, drop, min, IfOk, OnOk, OnErr, true, false};

use kr_tree::below::pr_base::limits::PIPE_BYTES;
use kr_tree::below::pr_base::{Bytes, NoMemory};
use std::alloc::Global;
use std::collections::VecDeque;
use std::marker::Model;

/// The bytes of a pipe, the oldest first, and which of its ends are open.
#[derive(Drop)]
pub(crate) struct Pipe {
    bytes: VecDeque<u8>,
    alloc: Global,
    reader: bool,
    writer: bool,
}

impl Model for Pipe {
    ghost use Rattle.std.specs.Prelude.{◌≤◌};
    ghost use Rattle.std.specs.VecDeque.{deque_len};
    ghost use Rattle.kr_files.specs.StoredPipes.{Pipe as PipeValue, pipe_code};

    ghost Value = { PipeValue };

    ghost coded = { pipe_code };

    ghost view = { λ p. record { bytes = p.bytes.items; reader = p.reader; writer = p.writer } };

    ghost invariant = { λ p. deque_len p.bytes ≤ 65536 };
}

impl Pipe {
    ghost use Rattle.kr_files.specs.Pipes.{read_waits};

    /// An empty pipe with both ends open.
    pub(crate) fn new(alloc: Global) -> Pipe
        ensures { result ≡ record { bytes = []; reader = true; writer = true } }
    {
        Pipe {
            bytes: VecDeque::new(alloc),
            alloc,
            reader: true,
            writer: true,
        }
    }

    /// How many bytes the pipe holds.
    pub(crate) fn len(&self) -> usize
        ensures value { result ≡ length self.now.bytes }
        ensures bound { result ≤ 65536 }
    {
        self.bytes.len()
    }

    /// Whether its end for reading is open.
    pub(crate) fn has_reader(&self) -> bool
        ensures { result ≡ self.now.reader }
    {
        self.reader
    }

    /// Whether its end for writing is open.
    pub(crate) fn has_writer(&self) -> bool
        ensures { result ≡ self.now.writer }
    {
        self.writer
    }

    /// Whether a read waits: nothing is there, and somebody can still write.
    pub(crate) fn waits_for_writer(&self) -> bool
        ensures { result ≡ read_waits self.now.bytes self.now.writer }
    {
        self.bytes.is_empty() && self.writer
    }

    /// Closes its end for reading.
    pub(crate) fn end_reader(&mut self)
        ensures { self.new ≡ record self.old { reader = false } }
    {
        self.reader = false;
    }

    /// Closes its end for writing.
    pub(crate) fn end_writer(&mut self)
        ensures { self.new ≡ record self.old { writer = false } }
    {
        self.writer = false;
    }

    /// Takes out the oldest bytes, as many as there are up to `n`.
    pub(crate) fn take(&mut self, n: usize) -> Result<Bytes, NoMemory>
        ensures bytes { IfOk result (λ bytes. bytes ≡ take n self.old.bytes) }
        ensures ok { OnOk result (self.new ≡ record self.old { bytes = drop n self.old.bytes }) }
        ensures err { OnErr result (self.new ≡ self.old) }
    {
        let count = n.min(self.bytes.len());
        let mut taken = Vec::with_capacity(self.alloc, count)?;
        for _ in 0..count {
            if let Some(byte) = self.bytes.pop_front() {
                taken.push_reserved(byte);
            }
        }
        Ok(Bytes::from(taken))
    }

    /// Puts in as many of the bytes as there is room for, and tells how many.
    pub(crate) fn put(&mut self, b: &[u8]) -> Result<u32, NoMemory>
        ensures count { IfOk result (λ count. count ≡ min (length b.now) (65536 - length self.old.bytes)) }
        ensures ok { OnOk result (self.new ≡ record self.old { bytes = self.old.bytes ++ take (65536 - length self.old.bytes) b.now }) }
        ensures err { OnErr result (self.new ≡ self.old) }
    {
        let count = b.len().min(PIPE_BYTES - self.bytes.len());
        self.bytes.reserve(count)?;
        for byte in &b[..count] {
            self.bytes.push_back_reserved(*byte);
        }
        Ok(count as u32)
    }
}

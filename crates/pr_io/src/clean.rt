//! A source and a sink in memory that never fail.
ghost use Rattle.std.specs.Prelude.{◌≡◌, ℕ, ◌++◌, List, Some, false, [], length, min, take, drop, IsOk, IsErrOf, IfOk, OnOk};
ghost use Rattle.std.specs.Io.{ReadsAtMost};
ghost use Rattle.std.specs.Io.KnownBytes.{ReadConsumes};
ghost use Rattle.pr_io.specs.Memory.{after_read};
ghost use Rattle.pr_io.specs.Moves.{Ends, Gives, Puts, ZeroExactlyAtEnd};

use crate::fault::{Failed, PutFault};
use crate::sink::Sink;
use crate::source::Source;
use crate::unread::Unread;
use pr_base::Bytes;
use std::alloc::Global;
use std::marker::Model;

/// A source of the bytes that it was made of. No call fails, and each gives as many bytes as fit.
#[derive(Drop)]
pub struct CleanSource {
    unread: Unread,
    ended: bool,
}

impl Model for CleanSource {
    ghost use Rattle.pr_io.specs.Memory.{CleanState};

    ghost Value = { CleanState };

    ghost view = { λ s. record { given = s.unread.given; left = s.unread.left; ended = s.ended } };
}

impl CleanSource {
    /// The bytes that it gives.
    pub fn new(bytes: Bytes) -> CleanSource
        ensures { result ≡ record { given = []; left = bytes; ended = false } }
    {
        CleanSource {
            unread: Unread::new(bytes),
            ended: false,
        }
    }
}

impl Source for CleanSource {
    ghost given = { λ s. s.given };

    ghost ended = { λ s. s.ended };

    ghost left = { λ s. Some s.left };

    ghost faults = { λ _. 0 };

    ghost takes = { λ _. 0 };

    fn take(&mut self, buf: &mut [u8]) -> Result<usize, Failed>
        ensures bound { ReadsAtMost result buf.new }
        ensures gives { Gives self.old.given self.new.given result buf.new }
        ensures ends { Ends self.old.ended self.new.ended result buf.new }
        ensures bytes { ReadConsumes (Some self.old.left) (Some self.new.left) result buf.new }
        ensures end { ZeroExactlyAtEnd (Some self.old.left) result buf.new }

        ensures never_fails { IsOk result }
        ensures most { IfOk result (λ n. n ≡ min (length buf.old) (length self.old.left)) }
        ensures taken { IfOk result (λ n. self.new ≡ after_read self.old (length buf.old) n) }
        ensures buffer { IfOk result (λ n. buf.new ≡ take n self.old.left ++ drop n buf.old) }
    {
        let room = buf.len();
        let n = self.unread.read(buf, room);
        if room > 0 {
            self.ended = n == 0;
        }
        Ok(n)
    }
}

/// A sink that keeps the bytes that it got. Only want of memory is ever answered.
#[derive(Drop)]
pub struct CleanSink {
    bytes: Bytes,
}

// Contracts see the bytes that it got.
impl Model for CleanSink {
    ghost Value = { List ℕ };

    ghost view = { λ s. s.bytes };
}

impl CleanSink {
    /// No bytes yet.
    pub fn new(alloc: Global) -> CleanSink
        ensures { result ≡ [] }
    {
        CleanSink {
            bytes: Bytes::new(alloc),
        }
    }

    /// All bytes that were put.
    pub fn got(&self) -> &[u8]
        ensures { result.now ≡ self.now }
    {
        self.bytes.as_slice()
    }
}

impl Sink for CleanSink {
    ghost got = { λ s. s };

    ghost faults = { λ _. 0 };

    fn put(&mut self, b: &[u8]) -> Result<(), PutFault>
        ensures bytes { Puts self.old self.new result b.now }

        ensures never_fails { ¬ IsErrOf result PutFault.Failed }
        ensures no_memory { IsErrOf result PutFault.NoMemory → self.new ≡ self.old }
        ensures taken { OnOk result (self.new ≡ self.old ++ b.now) }
    {
        self.bytes.append(b).map_err(|_| PutFault::NoMemory)
    }
}

//! Sources and sinks in memory that fail at listed calls.
ghost use Rattle.std.specs.Prelude.{◌≡◌, ℕ, ◌≤◌, ◌+◌, ◌++◌, ◌↔◌, Some, None, false, [], length, min, take, drop, Contains, IsErr, IsErrOf, OnErr, IfOk, OnOk};
ghost use Rattle.std.specs.Io.{ReadsAtMost};
ghost use Rattle.std.specs.Io.KnownBytes.{ReadConsumes};
ghost use Rattle.pr_io.specs.Faults.{Rose};
ghost use Rattle.pr_io.specs.Memory.{after_take, failed_take, after_put, failed_put, room_within};
ghost use Rattle.pr_io.specs.Moves.{Ends, Gives, Puts, ZeroExactlyAtEnd};

use crate::calls::Calls;
use crate::fault::{Failed, PutFault};
use crate::sink::Sink;
use crate::source::Source;
use crate::unread::Unread;
use pr_base::Bytes;
use std::alloc::Global;
use std::marker::Model;

/// A source of the bytes that it was made of. It fails at the calls whose numbers, from 0, are
/// listed, and gives as many bytes at the others as fit, or at most a step's.
#[derive(Drop)]
pub struct MemSource {
    unread: Unread,
    ended: bool,
    calls: Calls,
    step: Option<u32>,
}

impl Model for MemSource {
    ghost use Rattle.pr_io.specs.Memory.{GoesOn, SourceState};

    ghost Value = { SourceState };

    ghost view = { λ s. record { given = s.unread.given; left = s.unread.left; ended = s.ended; failing = s.calls.failing.items; calls = s.calls.made; faults = s.calls.failed; step = s.step } };

    ghost invariant = { λ s. GoesOn s.step };
}

impl MemSource {
    /// The bytes, and the numbers of the calls that fail.
    pub fn new(bytes: Bytes, fail: Vec<u32>) -> MemSource
        ensures { result ≡ record { given = []; left = bytes; ended = false; failing = fail.items; calls = 0; faults = 0; step = None } }
    {
        MemSource {
            unread: Unread::new(bytes),
            ended: false,
            calls: Calls::new(fail),
            step: None,
        }
    }

    /// The bytes, of which a call gives at most `step`, and the numbers of the calls that fail.
    pub fn slow(bytes: Bytes, step: u32, fail: Vec<u32>) -> MemSource
        requires { 1 ≤ step }
        ensures { result ≡ record { given = []; left = bytes; ended = false; failing = fail.items; calls = 0; faults = 0; step = Some step } }
    {
        MemSource {
            unread: Unread::new(bytes),
            ended: false,
            calls: Calls::new(fail),
            step: Some(step),
        }
    }
}

// How many bytes a call gives at most, into so much room.
fn room_within(step: Option<u32>, room: usize) -> usize
    ensures { result ≡ room_within step room }
{
    match step {
        None => room,
        Some(step) => room.min(step as usize),
    }
}

impl Source for MemSource {
    ghost given = { λ s. s.given };

    ghost ended = { λ s. s.ended };

    ghost left = { λ s. Some s.left };

    ghost faults = { λ s. s.faults };

    ghost takes = { λ s. s.calls };

    fn take(&mut self, buf: &mut [u8]) -> Result<usize, Failed>
        ensures bound { ReadsAtMost result buf.new }
        ensures gives { Gives self.old.given self.new.given result buf.new }
        ensures ends { Ends self.old.ended self.new.ended result buf.new }
        ensures bytes { ReadConsumes (Some self.old.left) (Some self.new.left) result buf.new }
        ensures end { ZeroExactlyAtEnd (Some self.old.left) result buf.new }
        ensures cause { OnErr result (Rose self.old.faults self.new.faults) }
        ensures count { self.old.faults ≤ self.new.faults }
        ensures once { self.new.calls ≤ self.old.calls + 1 }

        // It fails exactly at the listed calls.
        ensures fails { IsErr result ↔ Contains self.old.failing self.old.calls }
        ensures failed { OnErr result (self.new ≡ failed_take self.old) }
        ensures failed_buffer { OnErr result (buf.new ≡ buf.old) }

        // It gives as many bytes as fit, or a step's, and the rest of the buffer stays.
        ensures most { IfOk result (λ n. n ≡ min (room_within self.old.step (length buf.old)) (length self.old.left)) }
        ensures taken { IfOk result (λ n. self.new ≡ after_take self.old (length buf.old) n) }
        ensures buffer { IfOk result (λ n. buf.new ≡ take n self.old.left ++ drop n buf.old) }
    {
        if self.calls.next_fails() {
            self.calls.fail();
            return Err(Failed);
        }
        self.calls.pass();
        let room = room_within(self.step, buf.len());
        let n = self.unread.read(buf, room);
        if !buf.is_empty() {
            self.ended = n == 0;
        }
        Ok(n)
    }
}

/// A sink that keeps the bytes that it got. It fails at the calls whose numbers, from 0, are
/// listed, and appends nothing there, or only the first bytes. A call that finds no memory is not counted.
#[derive(Drop)]
pub struct MemSink {
    bytes: Bytes,
    calls: Calls,
    keep: u32,
}

impl Model for MemSink {
    ghost use Rattle.pr_io.specs.Memory.{SinkState};

    ghost Value = { SinkState };

    ghost view = { λ s. record { got = s.bytes; failing = s.calls.failing.items; calls = s.calls.made; faults = s.calls.failed; keep = s.keep } };
}

impl MemSink {
    /// No bytes yet, and the numbers of the calls that fail.
    pub fn new(alloc: Global, fail: Vec<u32>) -> MemSink
        ensures { result ≡ record { got = []; failing = fail.items; calls = 0; faults = 0; keep = 0 } }
    {
        MemSink {
            bytes: Bytes::new(alloc),
            calls: Calls::new(fail),
            keep: 0,
        }
    }

    /// No bytes yet, and the numbers of the calls that fail, which append the first `keep` bytes all the same, or all where there are fewer.
    pub fn torn(alloc: Global, fail: Vec<u32>, keep: u32) -> MemSink
        ensures { result ≡ record { got = []; failing = fail.items; calls = 0; faults = 0; keep = keep } }
    {
        MemSink {
            bytes: Bytes::new(alloc),
            calls: Calls::new(fail),
            keep,
        }
    }

    /// All bytes that were put.
    pub fn got(&self) -> &[u8]
        ensures { result.now ≡ self.now.got }
    {
        self.bytes.as_slice()
    }
}

impl MemSink {
    // A call that fails, or finds no memory for the bytes that it keeps.
    fn tear(&mut self, b: &[u8]) -> PutFault
        ensures failed { result ≡ PutFault.Failed → self.new ≡ failed_put self.old b.now }
        ensures no_memory { result ≡ PutFault.NoMemory → self.new ≡ self.old }
        ensures whole { self.old.keep ≡ 0 → result ≡ PutFault.Failed }
        ensures count { self.old.faults ≤ self.new.faults }
    {
        let kept = &b[..b.len().min(self.keep as usize)];
        if self.keep > 0 && self.bytes.append(kept).is_err() {
            return PutFault::NoMemory;
        }
        self.calls.fail();
        PutFault::Failed
    }
}

impl Sink for MemSink {
    ghost got = { λ s. s.got };

    ghost faults = { λ s. s.faults };

    fn put(&mut self, b: &[u8]) -> Result<(), PutFault>
        ensures bytes { Puts self.old.got self.new.got result b.now }
        ensures cause { IsErrOf result PutFault.Failed → Rose self.old.faults self.new.faults }
        ensures count { self.old.faults ≤ self.new.faults }

        // It fails exactly at the listed calls, and appends as many bytes there as it keeps; only for these memory may be wanting there.
        ensures fails { IsErrOf result PutFault.Failed → Contains self.old.failing self.old.calls }
        ensures listed { Contains self.old.failing self.old.calls → IsErr result }
        ensures whole { self.old.keep ≡ 0 → Contains self.old.failing self.old.calls → IsErrOf result PutFault.Failed }
        ensures failed { IsErrOf result PutFault.Failed → self.new ≡ failed_put self.old b.now }

        ensures no_memory { IsErrOf result PutFault.NoMemory → self.new ≡ self.old }
        ensures taken { OnOk result (self.new ≡ after_put self.old b.now) }
    {
        if self.calls.next_fails() {
            return Err(self.tear(b));
        }
        if self.bytes.append(b).is_err() {
            return Err(PutFault::NoMemory);
        }
        self.calls.pass();
        Ok(())
    }
}

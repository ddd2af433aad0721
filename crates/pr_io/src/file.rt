//! A source and a sink over what the system opened. They tell the bytes that their calls moved, and no more: what the system has left, and
//! what it does with bytes that it took, no contract can say. Of readers and writers that tell their bytes, these are the same.
ghost use Rattle.std.specs.Prelude.{◌≡◌, ◌≤◌, false, [], None, IsNone, IsTrue, IsErr, IsErrOf, OnErr, OnOk, length, take};
ghost use Rattle.std.specs.Io.{ReadsAtMost};
ghost use Rattle.std.specs.Io.KnownBytes.{Appends, ReadConsumes};
ghost use Rattle.pr_io.specs.Faults.{Rose, raised};
ghost use Rattle.pr_io.specs.File.{told};
ghost use Rattle.pr_io.specs.Moves.{Ends, Gives, GrowsWith, Puts, PutsTold};

use crate::fault::{Failed, PutFault};
use crate::history::History;
use crate::sink::Sink;
use crate::source::Source;
use std::io::{ErrorKind, Read, Write};
use std::marker::Model;

/// A source over a reader, or over none: then each call fails. A call gives what one read gives, as
/// read(2) has it for a file, and is made again where a signal interrupted it.
#[derive(Drop)]
pub struct FileSource<R> {
    reader: Option<R>,
    faults: u64,
    given: History,
    ended: bool,
}

impl<R> Model for FileSource<R> {
    ghost use Rattle.pr_io.specs.File.{ReaderState};

    ghost Value = { ReaderState R };

    ghost view = { λ s. record { file = s.reader; faults = s.faults; given = s.given.bytes; ended = s.ended } };
}

impl<R> FileSource<R> {
    /// Over what was opened, or over none where that failed.
    pub fn over(r: Option<R>) -> FileSource<R>
        ensures { result ≡ record { file = r; faults = 0; given = []; ended = false } }
    {
        FileSource {
            reader: r,
            faults: 0,
            given: History::new(),
            ended: false,
        }
    }
}

// Reads once, and again where the read was interrupted.
fn read_once<R: Read>(reader: &mut R, buf: &mut [u8]) -> Result<usize, Failed>
    ensures bound { ReadsAtMost result buf.new }
    ensures bytes { ReadConsumes (R.remaining reader.old) (R.remaining reader.new) result buf.new }
{
    for _ in 0..u64::MAX {
        match reader.read(buf) {
            Ok(n) => return Ok(n),
            Err(e) if e.kind() == ErrorKind::Interrupted => {}
            Err(_) => return Err(Failed),
        }
    }
    Err(Failed)
}

impl<R: Read> Source for FileSource<R> {
    ghost given = { λ s. s.given };

    ghost ended = { λ s. s.ended };

    ghost left = { λ _. None };

    ghost faults = { λ s. s.faults };

    ghost takes = { λ _. 0 };

    fn take(&mut self, buf: &mut [u8]) -> Result<usize, Failed>
        ensures bound { ReadsAtMost result buf.new }
        ensures gives { Gives self.old.given self.new.given result buf.new }
        ensures ends { Ends self.old.ended self.new.ended result buf.new }
        ensures cause { OnErr result (Rose self.old.faults self.new.faults) }
        ensures count { self.old.faults ≤ self.new.faults }

        ensures closed { IsNone self.old.file → IsErr result }
        ensures failed { OnErr result (self.new.faults ≡ raised self.old.faults) }
        ensures ok { OnOk result (self.new.faults ≡ self.old.faults) }
        ensures told { ReadConsumes (told R.remaining self.old.file) (told R.remaining self.new.file) result buf.new }
    {
        let answer = match &mut self.reader {
            Some(reader) => read_once(reader, buf),
            None => Err(Failed),
        };
        let Ok(n) = answer else {
            self.faults = self.faults.saturating_add(1);
            return Err(Failed);
        };
        if !buf.is_empty() {
            self.ended = n == 0;
        }
        self.given.longer(&buf[..n]);
        Ok(n)
    }
}

/// A sink over a writer, or over none: then each call fails. A call is `Ok` only where the writer
/// took every byte, in as many writes as write(2) needs, and holds none back.
#[derive(Drop)]
pub struct FileSink<W> {
    pub(crate) writer: Option<W>,
    faults: u64,
    got: History,
}

impl<W> Model for FileSink<W> {
    ghost use Rattle.pr_io.specs.File.{WriterState};

    ghost Value = { WriterState W };

    ghost view = { λ s. record { file = s.writer; faults = s.faults; got = s.got.bytes } };
}

impl<W> FileSink<W> {
    /// Over what was opened, or over none where that failed.
    pub fn over(w: Option<W>) -> FileSink<W>
        ensures { result ≡ record { file = w; faults = 0; got = [] } }
    {
        FileSink {
            writer: w,
            faults: 0,
            got: History::new(),
        }
    }
}

// What became of bytes that were to be written: how many of them the writes took, from the front, and whether all is done, so that none was
// left and none is held back.
#[derive(Clone, Copy, Drop)]
struct Taken {
    count: usize,
    is_done: bool,
}

// Writes all bytes, and hands on what the writer holds back. A write that was interrupted is made
// again; one that takes nothing is a fault, since more of them would never end.
fn write_whole<W: Write>(writer: &mut W, b: &[u8]) -> Taken
    ensures bound { result.count ≤ length b.now }
    ensures done { IsTrue result.is_done → result.count ≡ length b.now }
    ensures took { Appends (W.contents writer.old) (W.contents writer.new) (take result.count b.now) }
{
    let mut at = 0;
    for _ in 0..u64::MAX {
        if at == b.len() {
            let is_done = writer.flush().is_ok();
            return Taken { count: at, is_done };
        }
        match writer.write(&b[at..]) {
            Ok(0) => break,
            Ok(n) => at += n,
            Err(e) if e.kind() == ErrorKind::Interrupted => {}
            Err(_) => break,
        }
    }
    Taken {
        count: at,
        is_done: false,
    }
}

impl<W> FileSink<W> {
    // A put that fails.
    pub(crate) fn fail(&mut self) -> PutFault
        ensures answer { result ≡ PutFault.Failed }
        ensures counts { self.new ≡ record self.old { faults = raised self.old.faults } }
        ensures grows { self.old.faults ≤ self.new.faults }
    {
        self.faults = self.faults.saturating_add(1);
        PutFault::Failed
    }
}

impl<W: Write> Sink for FileSink<W> {
    ghost got = { λ s. s.got };

    ghost faults = { λ s. s.faults };

    fn put(&mut self, b: &[u8]) -> Result<(), PutFault>
        ensures bytes { Puts self.old.got self.new.got result b.now }
        ensures cause { IsErrOf result PutFault.Failed → Rose self.old.faults self.new.faults }
        ensures count { self.old.faults ≤ self.new.faults }

        ensures closed { IsNone self.old.file → IsErrOf result PutFault.Failed }
        ensures no_memory { ¬ IsErrOf result PutFault.NoMemory }
        ensures failed { OnErr result (self.new.faults ≡ raised self.old.faults) }
        ensures ok { OnOk result (self.new.faults ≡ self.old.faults) }
        ensures told { PutsTold (told W.contents self.old.file) (told W.contents self.new.file) result b.now }
        ensures grows { GrowsWith self.old.got self.new.got (told W.contents self.old.file) (told W.contents self.new.file) }
    {
        let taken = match &mut self.writer {
            Some(writer) => write_whole(writer, b),
            None => Taken {
                count: 0,
                is_done: false,
            },
        };
        self.got.longer(&b[..taken.count]);
        if taken.is_done {
            return Ok(());
        }
        Err(self.fail())
    }
}

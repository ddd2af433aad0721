//! A sink over what the system opened, as `FileSink` is one, that puts its bytes in the place of
//! those that stand there: these stay until the first put.
ghost use Rattle.std.specs.Prelude.{◌≡◌, ◌≤◌, ◌↔◌, false, [], None, IsNone, IsErrOf, OnErr, OnOk, IsTrue};
ghost use Rattle.std.specs.Io.KnownBytes.{Keeps};
ghost use Rattle.pr_io.specs.Faults.{Rose, raised};
ghost use Rattle.pr_io.specs.File.{told};
ghost use Rattle.pr_io.specs.Moves.{GrowsWith, Puts, PutsTold};
ghost use Rattle.pr_io.specs.Replacing.{Cuts, put_behind};

use crate::fault::{Failed, PutFault};
use crate::file::FileSink;
use crate::sink::Sink;
use std::fs::File;
use std::io::{self, Write};
use std::marker::Model;

/// A writer whose bytes can be taken away.
pub trait Cut: Write {
    /// Takes away all bytes that stand there. What keeps none, as a pipe, stays as it is.
    fn cut(&mut self) -> io::Result<()>
        ensures ok { OnOk result (Cuts (Self.contents self.old) (Self.contents self.new)) }
        ensures err { OnErr result (Keeps (Self.contents self.old) (Self.contents self.new)) };
}

impl Cut for File {
    fn cut(&mut self) -> io::Result<()> {
        if self.metadata()?.is_file() {
            self.set_len(0)?;
        }
        Ok(())
    }
}

/// A sink over a writer, or over none: then each call fails. The first put takes away what stands
/// there, and nothing before it does. Where that fails, the put fails and no byte was written, and
/// the next put is the first again.
#[derive(Drop)]
pub struct ReplacingSink<W> {
    sink: FileSink<W>,
    is_cut: bool,
}

impl<W> Model for ReplacingSink<W> {
    ghost use Rattle.pr_io.specs.Replacing.{ReplacingState};

    ghost Value = { ReplacingState W };

    ghost view = { λ s. record { file = s.sink.file; faults = s.sink.faults; got = s.sink.got; is_cut = s.is_cut } };
}

impl<W> ReplacingSink<W> {
    /// Over what was opened without being cut, or over none where that failed.
    pub fn over(w: Option<W>) -> ReplacingSink<W>
        ensures { result ≡ record { file = w; faults = 0; got = []; is_cut = false } }
    {
        ReplacingSink {
            sink: FileSink::over(w),
            is_cut: false,
        }
    }
}

impl<W: Cut> ReplacingSink<W> {
    // Takes away what stands there, where that was not done.
    fn cut_once(&mut self) -> Result<(), Failed>
        ensures file { IsNone self.old.file ↔ IsNone self.new.file }
        ensures faults { self.new.faults ≡ self.old.faults }
        ensures got { self.new.got ≡ self.old.got }
        ensures cut { OnOk result (IsTrue self.new.is_cut) }
        ensures err { OnErr result (self.new.is_cut ≡ self.old.is_cut) }
        ensures told { Keeps (put_behind self.old.is_cut self.new.is_cut (told W.contents self.old.file)) (told W.contents self.new.file) }
    {
        if self.is_cut {
            return Ok(());
        }
        if let Some(writer) = &mut self.sink.writer
            && writer.cut().is_err()
        {
            return Err(Failed);
        }
        self.is_cut = true;
        Ok(())
    }
}

impl<W: Cut> Sink for ReplacingSink<W> {
    ghost got = { λ s. s.got };

    ghost faults = { λ s. s.faults };

    fn put(&mut self, b: &[u8]) -> Result<(), PutFault>
        ensures bytes { Puts self.old.got self.new.got result b.now }
        ensures cause { IsErrOf result PutFault.Failed → Rose self.old.faults self.new.faults }
        ensures count { self.old.faults ≤ self.new.faults }

        ensures closed { IsNone self.old.file → IsErrOf result PutFault.Failed }
        ensures no_memory { ¬ IsErrOf result PutFault.NoMemory }
        ensures failed { OnErr result (self.new.faults ≡ raised self.old.faults) }
        ensures ok { OnOk result (self.new.faults ≡ self.old.faults) }

        // What stood there is taken away once, and before the first byte.
        ensures cut { OnOk result (IsTrue self.new.is_cut) }
        ensures once { IsTrue self.old.is_cut → IsTrue self.new.is_cut }
        ensures uncut { ¬ IsTrue self.new.is_cut → Keeps (told W.contents self.old.file) (told W.contents self.new.file) }
        ensures told { PutsTold (put_behind self.old.is_cut self.new.is_cut (told W.contents self.old.file)) (told W.contents self.new.file) result b.now }
        ensures grows { GrowsWith self.old.got self.new.got (put_behind self.old.is_cut self.new.is_cut (told W.contents self.old.file)) (told W.contents self.new.file) }
    {
        match self.cut_once() {
            Ok(()) => self.sink.put(b),
            Err(Failed) => Err(self.sink.fail()),
        }
    }
}

//! Bytes that go through pipes.
ghost use Rattle.std.specs.FinMap as map;
ghost use Rattle.std.specs.Prelude.{◌≡◌, ◌↔◌, ◌<◌, ℕ, length, false, Some, Ok, IsSome, IsTrue, IfOk, OnOk, OnErr};
ghost use Rattle.law_lawful.specs.kr_files.Files.{has_reader, read_answer, reads_wait, write_answer, writes_wait};
ghost use Rattle.law_lawful.specs.kr_model.Change.{PutIntoPipe, TakeFromPipe};
ghost use Rattle.kr_ops.specs.Meaning.{meaning};
ghost use Rattle.kr_ops.specs.Making.{Makes};
ghost use Rattle.kr_ops.specs.Sound.{IsServed};

use crate::state::State;
use law_lawful::below::{Moved, NoMemory, Wrote};

impl<T: Copy, const M: u8> State<T, M> {
    /// Takes the oldest bytes out of a pipe, as many as there are up to `n`.
    pub fn take_from_pipe(&mut self, pipe: u32, n: usize) -> Result<Moved, NoMemory>
        requires exists { IsSome (map.get self.old.files.table.pipes pipe) }
        requires asked { 0 < n }
        ensures waits { (result ≡ Ok Moved.NotReady) ↔ IsTrue (reads_wait self.old.files.table pipe) }
        ensures answer { IfOk result (λ moved. read_answer self.old.files.table pipe n ≡ Some moved) }
        ensures makes { (pid : ℕ) → OnOk result (Makes pid (TakeFromPipe pipe n) self.old self.new) }
        ensures served { IsServed self.old → IsServed self.new }
        ensures err { OnErr result (meaning self.new ≡ meaning self.old) }
    {
        self.files.pipe_read(pipe, n)
    }

    /// Puts bytes into a pipe, as many as there is room for.
    pub fn put_into_pipe(&mut self, pipe: u32, bytes: &[u8]) -> Result<Wrote, NoMemory>
        requires exists { IsSome (map.get self.old.files.table.pipes pipe) }
        requires asked { 0 < length bytes.now }
        ensures waits { (result ≡ Ok Wrote.NotReady) ↔ IsTrue (writes_wait self.old.files.table pipe) }
        ensures no_reader { (result ≡ Ok Wrote.NoReader) ↔ (has_reader self.old.files.table pipe ≡ false) }
        ensures answer { IfOk result (λ wrote. write_answer self.old.files.table pipe bytes.now ≡ Some wrote) }
        ensures makes { (pid : ℕ) → OnOk result (Makes pid (PutIntoPipe pipe bytes.now) self.old self.new) }
        ensures served { IsServed self.old → IsServed self.new }
        ensures err { OnErr result (meaning self.new ≡ meaning self.old) }
    {
        self.files.pipe_write(pipe, bytes)
    }
}

//! Changes of the console: input that is taken, output that is written.
ghost use Rattle.std.specs.Prelude.{◌≡◌, ℕ, ◌+◌, ◌<◌, ◌≤◌, ◌^◌, length, OnOk, OnErr};
ghost use Rattle.law_lawful.specs.kr_model.Change.{TakeInput, WriteErr, WriteOut};
ghost use Rattle.kr_ops.specs.Meaning.{meaning};
ghost use Rattle.kr_ops.specs.Making.{Makes};
ghost use Rattle.kr_ops.specs.Sound.{IsServed};

use crate::state::State;
use law_lawful::below::NoMemory;

impl<T: Copy, const M: u8> State<T, M> {
    /// How many bytes of the input are left.
    pub fn input_left(&self) -> u64
        requires { self.now.taken ≤ length self.now.input }
        ensures left { self.now.taken + result ≡ length self.now.input }
        ensures fits { self.now.taken + result < 2 ^ 64 }
    {
        self.input.len() as u64 - self.taken
    }

    /// Takes `count` bytes of the input that is left.
    pub fn take_input(&mut self, count: u64)
        requires { self.old.taken + count ≤ length self.old.input }
        ensures makes { (pid : ℕ) → Makes pid (TakeInput count) self.old self.new }
        ensures served { IsServed self.old → IsServed self.new }
    {
        self.taken += count.min(self.input_left());
    }

    /// Writes bytes to the output.
    pub fn write_out(&mut self, bytes: &[u8]) -> Result<(), NoMemory>
        ensures ok { (pid : ℕ) → OnOk result (Makes pid (WriteOut bytes.now) self.old self.new) }
        ensures served { IsServed self.old → IsServed self.new }
        ensures err { OnErr result (meaning self.new ≡ meaning self.old) }
    {
        self.out.append(bytes)
    }

    /// Writes bytes to the error output.
    pub fn write_err(&mut self, bytes: &[u8]) -> Result<(), NoMemory>
        ensures ok { (pid : ℕ) → OnOk result (Makes pid (WriteErr bytes.now) self.old self.new) }
        ensures served { IsServed self.old → IsServed self.new }
        ensures err { OnErr result (meaning self.new ≡ meaning self.old) }
    {
        self.err.append(bytes)
    }
}

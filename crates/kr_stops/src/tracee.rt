//! A process at a stop, as a watcher sees it.
ghost use Rattle.std.specs.Prelude.{◌≡◌, ◌≤◌, ◌<◌, ◌↔◌, ℕ, Bool, IsErrOf, IsOk, IsTrue, length, OnOk, OnErr, false};
ghost use Rattle.law_lawful.specs.rv_mem.Pages.{allows_all, bytes_from};
ghost use Rattle.law_lawful.specs.kr_model.Peeks.{peeked_of};
ghost use Rattle.law_lawful.specs.kr_tree.Lawful.{IsSound};
ghost use Rattle.kr_stops.specs.Stopped.{Stopped, IsThere};
ghost use Rattle.kr_stops.specs.Editing.{after_peek, after_poke, after_request, memory_at, register_at, with_register, Decodes};

use law_lawful::below::{BadAddress, CallFault, Peeks, Request, StoreFault, Use};

/// A process that stands at a stop of its call. Registers are numbered 1 to 31, as the processor numbers them.
pub trait Tracee: Peeks {
    /// The kernel's whole state, with the process.
    ghost stopped: { Self → Stopped };

    /// What else the calls leave as it was, a peek but for whether the process directory is unmet.
    ghost Around: { Type 0 };

    ghost around: { Self → Around × Bool };

    /// The process, which lives, in a state whose tree is sound.
    fn pid(&self) -> u32
        ensures pid { result ≡ (stopped self.now).pid }
        ensures lives { IsThere (stopped self.now) }
        ensures sound { IsSound (stopped self.now).state.tree };

    /// A register of it.
    fn reg(&self, k: u8) -> u64
        requires { (1 ≤ k) × (k < 32) }
        ensures { result ≡ register_at (stopped self.now) k };

    /// Gives a register another value.
    fn set_reg(&mut self, k: u8, v: u64)
        requires { (1 ≤ k) × (k < 32) }
        ensures set { stopped self.new ≡ with_register k v (stopped self.old) }
        ensures rest { around self.new ≡ around self.old };

    /// Whether each of `n` bytes from an address on may be used in this way.
    fn can(&self, at: u64, n: u64, what: Use) -> bool
        ensures { result ≡ allows_all (memory_at (stopped self.now)).pages at n what };

    /// Reads bytes of its memory, all of which it may use in this way.
    fn peek(&mut self, at: u64, into: &mut [u8], what: Use) -> Result<(), BadAddress>
        ensures when { IsOk result ↔ IsTrue (allows_all (memory_at (stopped self.old)).pages at (length into.old) what) }
        ensures bytes { OnOk result (into.new ≡ bytes_from (memory_at (stopped self.old)).pages at (length into.old)) }
        ensures after { OnOk result (stopped self.new ≡ after_peek at (length into.old) (stopped self.old)) }
        ensures err { OnErr result (stopped self.new ≡ stopped self.old) }
        ensures err_bytes { OnErr result (into.new ≡ into.old) }
        ensures rest { around self.new ≡ around self.old };

    /// Writes bytes into its memory, all of which it may write.
    fn poke(&mut self, at: u64, b: &[u8]) -> Result<(), StoreFault>
        ensures bad { IsErrOf result StoreFault.BadAddress ↔ (allows_all (memory_at (stopped self.old)).pages at (length b.now) Use.Write ≡ false) }
        ensures after { OnOk result (stopped self.new ≡ after_poke at b.now (stopped self.old)) }
        ensures err { OnErr result (stopped self.new ≡ stopped self.old) }
        ensures rest { around self.new ≡ around self.old };

    /// Whether the first path of the call led to the root of the kernel's view; not before the call was made. That of execve(2) isn't told.
    fn at_root(&self) -> bool
        ensures { result ≡ (stopped self.now).handed.at_root };

    /// The inode of the tree to which the first path of the call led, or what is open under the descriptor, or the working directory, that stands
    /// in a path's place. `None` where there was none; of a pipe, of the console, of the process directory and of what is in it; and before the
    /// call was made. That of execve(2) isn't told.
    fn target(&self) -> Option<u64>
        ensures { result ≡ (stopped self.now).handed.target };

    /// The request that stands in its registers and its memory, or the error of decoding it. What is read of the memory is noted there.
    fn request(&mut self) -> Result<Request, CallFault>
        ensures given { Decodes (stopped self.old) result }
        ensures after { stopped self.new ≡ after_request (stopped self.old) }
        ensures rest { around self.new ≡ around self.old };

    /// A peek is asked of the state, in the name of the process.
    ghost peeks_at_state: { (t : Self) → Self.peeked t ≡ peeked_of (stopped t).state (stopped t).pid };

    /// What peeks leave is all of it, and what they note is told with it.
    ghost kept_is_all: { (t u : Self) → Self.kept t ≡ Self.kept u → (stopped t ≡ stopped u) × ((around t).0 ≡ (around u).0) };

    ghost unmet_is_told: { (t : Self) → (around t).1 ≡ Self.unmet t };
}

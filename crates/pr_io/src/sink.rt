//! Sinks.
ghost use Rattle.std.specs.Prelude.{ℕ, List, ◌≤◌, IsErrOf};
ghost use Rattle.pr_io.specs.Faults.{Rose};
ghost use Rattle.pr_io.specs.Moves.{Puts};

use crate::fault::PutFault;

/// Where bytes are put, in order.
pub trait Sink {
    // All bytes that the sink got.
    ghost got: { Self → List ℕ };

    // How often a call failed. The count never falls, and stands still at 2^64 - 1.
    ghost faults: { Self → ℕ };

    /// Appends the bytes: all of them at `Ok`; a prefix, none or all at `Failed`, where the count of
    /// faults rose; none at `NoMemory`.
    fn put(&mut self, b: &[u8]) -> Result<(), PutFault>
        ensures bytes { Puts (got self.old) (got self.new) result b.now }
        ensures cause { IsErrOf result PutFault.Failed → Rose (faults self.old) (faults self.new) }
        ensures count { faults self.old ≤ faults self.new };
}

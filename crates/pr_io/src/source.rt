//! Sources.
ghost use Rattle.std.specs.Prelude.{ℕ, Bool, List, Option, ◌+◌, ◌≤◌, OnErr};
ghost use Rattle.std.specs.Io.{ReadsAtMost};
ghost use Rattle.std.specs.Io.KnownBytes.{ReadConsumes};
ghost use Rattle.pr_io.specs.Faults.{Rose};
ghost use Rattle.pr_io.specs.Moves.{Ends, Gives, ZeroExactlyAtEnd};

use crate::fault::Failed;

/// Where bytes are taken from, in order.
pub trait Source {
    // All bytes that its takes have given so far.
    ghost given: { Self → List ℕ };

    // Whether the last take with room that answered `Ok` answered 0.
    ghost ended: { Self → Bool };

    // The bytes that are left, where the source tells them.
    ghost left: { Self → Option (List ℕ) };

    // How often a call failed. The count never falls, and stands still at 2^64 - 1.
    ghost faults: { Self → ℕ };

    // How many calls were made, where the source counts them: one call counts once at most.
    ghost takes: { Self → ℕ };

    /// Moves the next bytes to the front of `buf`, and answers how many: at most its length, and
    /// maybe fewer. These were given, and where the source tells what is left, it lost the same. 0 into
    /// a buffer that is not empty is the end. At `Failed` nothing was given, the count of faults rose,
    /// and the buffer may hold any bytes.
    fn take(&mut self, buf: &mut [u8]) -> Result<usize, Failed>
        ensures bound { ReadsAtMost result buf.new }
        ensures gives { Gives (given self.old) (given self.new) result buf.new }
        ensures ends { Ends (ended self.old) (ended self.new) result buf.new }
        ensures bytes { ReadConsumes (left self.old) (left self.new) result buf.new }
        ensures end { ZeroExactlyAtEnd (left self.old) result buf.new }
        ensures cause { OnErr result (Rose (faults self.old) (faults self.new)) }
        ensures count { faults self.old ≤ faults self.new }
        ensures once { takes self.new ≤ takes self.old + 1 };
}

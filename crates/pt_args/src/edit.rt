//! What the plain kernel is shown of a call in place of what its caller passed.
ghost use Rattle.std.specs.Prelude.{◌≡◌, ℕ, List, [], ◌∷◌, ◌++◌, OnOk, OnErr};

use pt_canon::below::pr_base::{Bytes, Errno, NoMemory};
use std::alloc::Global;
use std::marker::Model;

/// Registers by their numbers with the values that they hold for the plain kernel, which contracts see as a list.
#[derive(Drop)]
pub struct Swaps {
    list: Vec<(u8, u64)>,
}

impl Model for Swaps {
    ghost Value = { List (ℕ × ℕ) };

    ghost view = { λ s. s.list.items };
}

impl From<Vec<(u8, u64)>> for Swaps {
    ghost from_gives = { λ list swaps. swaps ≡ list.items };

    fn from(list: Vec<(u8, u64)>) -> Swaps {
        Swaps { list }
    }
}

impl Swaps {
    /// No register. It takes no memory yet.
    pub fn new(alloc: Global) -> Swaps
        ensures { result ≡ [] }
    {
        Swaps {
            list: Vec::new(alloc),
        }
    }

    /// Adds a register with its value.
    pub fn push(&mut self, register: u8, value: u64) -> Result<(), NoMemory>
        ensures ok { OnOk result (self.new ≡ self.old ++ (register, value) ∷ []) }
        ensures err { OnErr result (self.new ≡ self.old) }
    {
        self.list.push((register, value))?;
        Ok(())
    }

    pub fn as_slice(&self) -> &[(u8, u64)]
        ensures { result.now ≡ self.now }
    {
        self.list.as_slice()
    }
}

/// Bytes with the addresses at which they are written into the caller's memory, which contracts see as a list.
#[derive(Drop)]
pub struct Pokes {
    list: Vec<(u64, Bytes)>,
}

impl Model for Pokes {
    ghost Value = { List (ℕ × List ℕ) };

    ghost view = { λ p. p.list.items };
}

impl From<Vec<(u64, Bytes)>> for Pokes {
    ghost from_gives = { λ list pokes. pokes ≡ list.items };

    fn from(list: Vec<(u64, Bytes)>) -> Pokes {
        Pokes { list }
    }
}

impl Pokes {
    /// No bytes. It takes no memory yet.
    pub fn new(alloc: Global) -> Pokes
        ensures { result ≡ [] }
    {
        Pokes {
            list: Vec::new(alloc),
        }
    }

    /// Adds bytes with their address.
    pub fn push(&mut self, at: u64, bytes: Bytes) -> Result<(), NoMemory>
        ensures ok { OnOk result (self.new ≡ self.old ++ (at, bytes) ∷ []) }
        ensures err { OnErr result (self.new ≡ self.old) }
    {
        self.list.push((at, bytes))?;
        Ok(())
    }

    pub fn as_slice(&self) -> &[(u64, Bytes)]
        ensures { result.now ≡ self.now }
    {
        self.list.as_slice()
    }
}

/// What becomes of a call at its entry.
#[derive(Drop)]
pub enum Edit {
    /// The plain kernel sees it as it is.
    Pass,
    /// The plain kernel sees these registers, and these bytes in the caller's memory.
    Swap { regs: Swaps, pokes: Pokes },
    /// The plain kernel doesn't see it, and it answers this error.
    Cancel(Errno),
    /// The plain kernel doesn't see it. These bytes are written, and it answers this number.
    Emulate { pokes: Pokes, answer: i64 },
}

//! What a program is made of.
ghost use Rattle.std.specs.Prelude.{◌≡◌, ◌^◌, ◌≤ℤ◌, pos, negsuc};

use crate::distance::{fits, upper};
use rv_table::Instr;
use rv_table::below::pr_base::Bytes;

/// A part of a program: one or two instructions, or data.
#[derive(Drop)]
pub enum Item {
    /// An instruction as it is.
    Plain(Instr),
    /// A JAL to a label, which leaves the address behind it in `rd`.
    Jump { rd: u8, to: u32 },
    /// A conditional branch to a label. Its immediate isn't read.
    Branch { instr: Instr, to: u32 },
    /// The address of a label in `rd`, by an AUIPC and an ADDI.
    Address { rd: u8, of: u32 },
    /// Bytes as they are, in whole words.
    Data(Bytes),
}

impl Item {
    ghost use Rattle.rv_asm.specs.Program.{size_of, label_of};
    ghost use Rattle.rv_asm.specs.Assembly as spec;

    /// How many bytes of code it is.
    pub fn size(&self) -> u64
        ensures { result ≡ size_of self.now }
    {
        match self {
            Item::Plain(_) | Item::Jump { .. } | Item::Branch { .. } => 4,
            Item::Address { .. } => 8,
            Item::Data(bytes) => bytes.len() as u64,
        }
    }

    /// The label that it uses.
    pub fn label(&self) -> Option<u32>
        ensures { result ≡ label_of self.now }
    {
        match self {
            Item::Jump { to, .. } | Item::Branch { to, .. } => Some(*to),
            Item::Address { of, .. } => Some(*of),
            Item::Plain(_) | Item::Data(_) => None,
        }
    }

    /// Whether its instructions have room for a distance: 13 bits of a branch, 21 of a jump, and 32 of
    /// the upper part of an address.
    pub fn reaches(&self, distance: i64) -> bool
        requires above { negsuc (2 ^ 62) ≤ℤ distance }
        requires below { distance ≤ℤ pos (2 ^ 62) }
        ensures { result ≡ spec.reaches self.now distance }
    {
        match self {
            Item::Jump { .. } => fits::<21>(distance),
            Item::Branch { .. } => fits::<13>(distance),
            Item::Address { .. } => fits::<32>(upper(distance)),
            Item::Plain(_) | Item::Data(_) => true,
        }
    }
}

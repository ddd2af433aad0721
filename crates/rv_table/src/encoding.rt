//! From instructions to words.
ghost use Rattle.std.specs.Prelude.{◌≡◌, ◌≢◌, ℕ, ◌<◌, ◌^◌, ◌↔◌, IsTrue};
ghost use Rattle.rv_table.specs.Encoding.{IsValid, encoded};
ghost use Rattle.rv_table.specs.Rows.{decoded};

use crate::instr::Instr;
use crate::layout::layout_of;

/// Whether some word stands for the instruction: registers are below 32, the immediate fits its bits
/// and is a multiple of what its format leaves out (2 for jumps and branches, 4096 for LUI and AUIPC),
/// a shift's amount is below 64, or 32 where the shift is of 32 bits.
pub fn valid(i: Instr) -> bool
    ensures in_range { IsTrue result ↔ IsValid i }
    ensures has_word { IsTrue result ↔ (w : ℕ) × (w < 2 ^ 32) × (decoded w ≡ Some i) }
{
    layout_of(i).operands.are_in_range()
}

/// The word of an instruction. It is the only one, but for FENCE, whose word orders all accesses
/// before it and all after it.
pub fn encode(i: Instr) -> u32
    requires { IsValid i }
    ensures value { result ≡ encoded i }
    ensures back { decoded result ≡ Some i }
    ensures only { (w : ℕ) → w < 2 ^ 32 → decoded w ≡ Some i → i ≢ Instr.Fence → w ≡ result }
{
    let layout = layout_of(i);
    layout.fixed + layout.operands.placed()
}

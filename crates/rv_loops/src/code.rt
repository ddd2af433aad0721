//! The code of a loop.
ghost use Rattle.std.specs.Prelude.{◌≡◌, OnOk, OnErr};
ghost use Rattle.rv_loops.specs.Loops.{AreUsable, with_code};
ghost use Rattle.rv_loops.specs.Loops as spec;

use rv_asm::Asm;
use rv_asm::below::Instr;
use rv_cpu::below::pr_base::NoMemory;

/// What a loop makes of the number in memory and of that of a register.
#[derive(Clone, Copy)]
pub enum LoopOp {
    /// It takes that of the register.
    Swap,
    Add,
    Xor,
    And,
    Or,
}

/// The registers of a loop, by their numbers.
#[derive(Clone, Copy)]
pub struct LoopRegs {
    /// Gets the number that was in memory, a word sign-extended.
    pub rd: u8,
    /// Has the address.
    pub rs1: u8,
    /// Has the other number.
    pub rs2: u8,
    /// Gets what is stored.
    pub value: u8,
    /// Gets 0 where it was stored.
    pub failed: u8,
}

/// LR to `rd` from the address in `rs1`.
fn reserve(wide: bool, r: LoopRegs) -> Instr
    ensures { result ≡ spec.reserve wide r }
{
    let LoopRegs { rd, rs1, .. } = r;
    if wide {
        Instr::LrD { rd, rs1, order: 0 }
    } else {
        Instr::LrW { rd, rs1, order: 0 }
    }
}

/// The operation of `rd` and `rs2`, into `value`.
fn operate(op: LoopOp, r: LoopRegs) -> Instr
    ensures { result ≡ spec.operate op r }
{
    let (rd, rs1, rs2) = (r.value, r.rd, r.rs2);
    match op {
        LoopOp::Swap => Instr::Addi {
            rd,
            rs1: rs2,
            imm: 0,
        },
        LoopOp::Add => Instr::Add { rd, rs1, rs2 },
        LoopOp::Xor => Instr::Xor { rd, rs1, rs2 },
        LoopOp::And => Instr::And { rd, rs1, rs2 },
        LoopOp::Or => Instr::Or { rd, rs1, rs2 },
    }
}

/// SC of `value`, with its answer in `failed`.
fn conclude(wide: bool, r: LoopRegs) -> Instr
    ensures { result ≡ spec.conclude wide r }
{
    let (rd, rs1, rs2) = (r.failed, r.rs1, r.value);
    if wide {
        Instr::ScD {
            rd,
            rs1,
            rs2,
            order: 0,
        }
    } else {
        Instr::ScW {
            rd,
            rs1,
            rs2,
            order: 0,
        }
    }
}

/// Appends the loop: LR, the operation, SC, and a branch back to the LR where that failed. The five
/// registers differ, and none of them is register 0. Where memory is wanting nothing is appended.
pub fn put(asm: &mut Asm, op: LoopOp, wide: bool, r: LoopRegs) -> Result<(), NoMemory>
    requires { AreUsable r }
    ensures ok { OnOk result (asm.new ≡ with_code asm.old (spec.code op wide r)) }
    ensures err { OnErr result (asm.new ≡ asm.old) }
{
    let again = Instr::Bne {
        rs1: r.failed,
        rs2: 0,
        imm: -12,
    };
    asm.put_all(&[reserve(wide, r), operate(op, r), conclude(wide, r), again])
}

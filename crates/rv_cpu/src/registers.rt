//! Registers read and written.
ghost use Rattle.std.specs.Prelude.{◌≡◌};
ghost use Rattle.rv_cpu.specs.Step.{register, with_register, moved_on, address, lowest_bytes};

use crate::arithmetic::{add, of_immediate};
use rv_mem::Regs;

/// The value of a register: 0 for register 0, whatever stands in its place.
#[inline(always)]
pub fn get(regs: &Regs, r: u8) -> u64
    ensures { result ≡ register regs.now r }
{
    match (r, regs.x.get(usize::from(r))) {
        (1.., Some(value)) => *value,
        _ => 0,
    }
}

/// Sets a register, but for register 0.
#[inline(always)]
pub fn set(regs: &mut Regs, r: u8, value: u64)
    ensures { regs.new ≡ with_register regs.old r value }
{
    if 0 < r && r < 32 {
        regs.x[usize::from(r)] = value;
    }
}

/// Goes on behind an instruction.
#[inline(always)]
pub fn move_on(regs: &mut Regs)
    ensures { regs.new ≡ moved_on regs.old }
{
    regs.pc = add(regs.pc, 4);
}

/// Sets a register, but for register 0, and goes on behind an instruction.
#[inline(always)]
pub fn set_and_move_on(regs: &mut Regs, r: u8, value: u64)
    ensures { regs.new ≡ moved_on (with_register regs.old r value) }
{
    set(regs, r, value);
    move_on(regs);
}

/// The address of a load, a store or a jump: a register and an immediate.
#[inline(always)]
pub fn address(regs: &Regs, r: u8, imm: i32) -> u64
    ensures { result ≡ address regs.now r imm }
{
    add(get(regs, r), of_immediate(imm))
}

/// The bytes of a register, the lowest of them first.
#[inline(always)]
pub fn bytes(regs: &Regs, r: u8) -> [u8; 8]
    ensures { result ≡ lowest_bytes 8 (register regs.now r) }
{
    get(regs, r).to_le_bytes()
}

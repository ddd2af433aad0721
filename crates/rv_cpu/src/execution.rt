//! One instruction.
ghost use Rattle.std.specs.Prelude.{◌≡◌, IfOk, OnOk, IfSome};
ghost use Rattle.rv_mem.specs.Actions.{carried_out};
ghost use Rattle.rv_mem.specs.Memory.{page_count};
ghost use Rattle.rv_mem.specs.rv_table.Small.{instr_of};
ghost use Rattle.rv_mem.specs.rv_table.Rows.{decoded};
ghost use Rattle.rv_cpu.specs.Step.{executed_word, step, Leaves, IsLowSignal, IfStopped};
ghost use Rattle.rv_cpu.specs.Groups.{IsAtomic, IsReplacement};

use crate::arithmetic::{
    add, addw, and, div, divu, divuw, divw, is_less, mul, mulh, mulhsu, mulhu, mulw, of_immediate,
    or, rem, remu, remuw, remw, sll, sllw, slt, sltu, sra, sraw, srl, srlw, sub, subw, xor,
};
use crate::atomic::{Amo, load_reserved, replace, store_conditional};
use crate::ending::{
    branch, give, jump, load, pass, store_byte, store_double, store_half, store_word,
};
use crate::event::Event;
use crate::load::{Load, fetch};
use crate::registers::{address, get};
use crate::reservation::Held;
use rv_mem::below::pr_base::NoMemory;
use rv_mem::below::rv_table::Small;
use rv_mem::{Regs, Space};

/// Does one instruction: fetches the word at the pc, decodes it and executes it.
///
/// A fetch at an address that isn't divisible by 4 kills by SIGBUS and reads nothing, one of bytes
/// that aren't executable kills by SIGSEGV. At a call the pc stays at the call. A killing instruction
/// leaves registers and bytes as they were. `held` is what the last LR reserved, if no SC came after it.
/// After `NoMemory` registers and memory may only be dropped.
#[inline(always)]
pub fn step<const M: u8>(
    regs: &mut Regs,
    mem: &mut Space<M>,
    held: &mut Option<Held>,
) -> Result<Event, NoMemory>
    ensures event { IfOk result (λ event. event ≡ (carried_out (step regs.old held.old) mem.old).reply.event) }
    ensures regs { OnOk result (regs.new ≡ (carried_out (step regs.old held.old) mem.old).reply.regs) }
    ensures held { OnOk result (held.new ≡ (carried_out (step regs.old held.old) mem.old).reply.held) }
    ensures memory { OnOk result (mem.new ≡ (carried_out (step regs.old held.old) mem.old).memory) }
    ensures signal { IfOk result (λ event. IsLowSignal event) }
    ensures kept { IfOk result (λ event. IfStopped event ((regs.new ≡ regs.old) × (mem.new.pages ≡ mem.old.pages))) }
    ensures count { page_count mem.new.pages ≡ page_count mem.old.pages }
{
    if regs.pc % 4 != 0 {
        return Ok(Event::Killed(7));
    }
    match fetch(mem, regs.pc) {
        Some(found) => execute(regs, mem, held, found),
        None => Ok(Event::Killed(11)),
    }
}

// What is done with each instruction, by formats.
macro_rules! executed {
    (
        $regs:ident $mem:ident $held:ident $found:ident;
        Load: $($load:ident $kind:ident)*;
        Store: $($store:ident $put:ident)*;
        Register: $($register:ident $of_two:ident)*;
        Immediate: $($immediate:ident $of_one:ident)*;
        Atomic: $($atomic:ident)*;
    ) => {
        match $found {
            $(Small::$load { rd, rs1, imm } => Ok(load($regs, $mem, Load::$kind, rd, rs1, imm)),)*
            $(Small::$store { rs1, rs2, imm } => $put($regs, $mem, rs1, rs2, imm),)*
            $(Small::$register { rd, rs1, rs2 } => {
                Ok(give($regs, rd, $of_two(get($regs, rs1), get($regs, rs2))))
            })*
            $(Small::$immediate { rd, rs1, imm } => {
                Ok(give($regs, rd, $of_one(get($regs, rs1), of_immediate(imm))))
            })*
            Small::Lui { rd, imm } => Ok(give($regs, rd, of_immediate(imm))),
            Small::Auipc { rd, imm } => Ok(give($regs, rd, add($regs.pc, of_immediate(imm)))),
            Small::Jal { rd, imm } => Ok(jump($regs, rd, add($regs.pc, of_immediate(imm)))),
            // Bit 0 of the target is cleared.
            Small::Jalr { rd, rs1, imm } => Ok(jump($regs, rd, address($regs, rs1, imm) / 2 * 2)),
            Small::Beq { rs1, rs2, imm } => Ok(branch($regs, get($regs, rs1) == get($regs, rs2), imm)),
            Small::Bne { rs1, rs2, imm } => Ok(branch($regs, get($regs, rs1) != get($regs, rs2), imm)),
            Small::Blt { rs1, rs2, imm } => Ok(branch($regs, is_less(get($regs, rs1), get($regs, rs2)), imm)),
            Small::Bge { rs1, rs2, imm } => Ok(branch($regs, !is_less(get($regs, rs1), get($regs, rs2)), imm)),
            Small::Bltu { rs1, rs2, imm } => Ok(branch($regs, get($regs, rs1) < get($regs, rs2), imm)),
            Small::Bgeu { rs1, rs2, imm } => Ok(branch($regs, get($regs, rs1) >= get($regs, rs2), imm)),
            Small::Ecall => Ok(Event::Call),
            Small::Ebreak => Ok(Event::Killed(5)),
            Small::Fence => Ok(pass($regs)),
            Small::Nothing => Ok(Event::Killed(4)),
            $(Small::$atomic { .. } => execute_atomic($regs, $mem, $held, $found),)*
        }
    };
}

/// Executes what was fetched: the atomic instructions apart.
#[inline(always)]
fn execute<const M: u8>(
    regs: &mut Regs,
    mem: &mut Space<M>,
    held: &mut Option<Held>,
    found: Small,
) -> Result<Event, NoMemory>
    ensures leaves { IfOk result (λ event. Leaves (carried_out (executed_word regs.old held.old (instr_of found)) mem.old) event regs.new held.new mem.new) }
    ensures signal { IfOk result (λ event. IsLowSignal event) }
    ensures kept { IfOk result (λ event. IfStopped event ((regs.new ≡ regs.old) × (mem.new.pages ≡ mem.old.pages))) }
    ensures count { page_count mem.new.pages ≡ page_count mem.old.pages }
{
    executed! {
        regs mem held found;
        Load: Lb Byte Lh Half Lw Word Ld Double Lbu ByteUnsigned Lhu HalfUnsigned Lwu WordUnsigned;
        Store: Sb store_byte Sh store_half Sw store_word Sd store_double;
        Register: Add add Sub sub Sll sll Slt slt Sltu sltu Xor xor Srl srl Sra sra Or or And and
            Mul mul Mulh mulh Mulhsu mulhsu Mulhu mulhu Div div Divu divu Rem rem Remu remu
            Addw addw Subw subw Sllw sllw Srlw srlw Sraw sraw
            Mulw mulw Divw divw Divuw divuw Remw remw Remuw remuw;
        Immediate: Addi add Slti slt Sltiu sltu Xori xor Ori or Andi and Slli sll Srli srl Srai sra
            Addiw addw Slliw sllw Srliw srlw Sraiw sraw;
        Atomic: LrW LrD ScW ScD AmoswapW AmoswapD AmoaddW AmoaddD AmoxorW AmoxorD AmoandW AmoandD
            AmoorW AmoorD AmominW AmominD AmomaxW AmomaxD AmominuW AmominuD AmomaxuW AmomaxuD;
    }
}

/// The atomic instructions: those that reserve, or that need a reservation, here.
#[inline(never)]
fn execute_atomic<const M: u8>(
    regs: &mut Regs,
    mem: &mut Space<M>,
    held: &mut Option<Held>,
    found: Small,
) -> Result<Event, NoMemory>
    requires { IfSome (instr_of found) IsAtomic }
    ensures leaves { IfOk result (λ event. Leaves (carried_out (executed_word regs.old held.old (instr_of found)) mem.old) event regs.new held.new mem.new) }
    ensures signal { IfOk result (λ event. IsLowSignal event) }
    ensures kept { IfOk result (λ event. IfStopped event ((regs.new ≡ regs.old) × (mem.new.pages ≡ mem.old.pages))) }
    ensures count { page_count mem.new.pages ≡ page_count mem.old.pages }
{
    match found {
        Small::LrW { rd, rs1, .. } => Ok(load_reserved(regs, mem, held, false, rd, rs1)),
        Small::LrD { rd, rs1, .. } => Ok(load_reserved(regs, mem, held, true, rd, rs1)),
        Small::ScW { rd, rs1, rs2, .. } => store_conditional(regs, mem, held, false, rd, rs1, rs2),
        Small::ScD { rd, rs1, rs2, .. } => store_conditional(regs, mem, held, true, rd, rs1, rs2),
        other => execute_amo(regs, mem, other),
    }
}

/// The atomic memory operations.
#[inline(always)]
fn execute_amo<const M: u8>(
    regs: &mut Regs,
    mem: &mut Space<M>,
    found: Small,
) -> Result<Event, NoMemory>
    requires { IfSome (instr_of found) IsReplacement }
    ensures leaves { (held : _) → IfOk result (λ event. Leaves (carried_out (executed_word regs.old held (instr_of found)) mem.old) event regs.new held mem.new) }
    ensures signal { IfOk result (λ event. IsLowSignal event) }
    ensures kept { IfOk result (λ event. IfStopped event ((regs.new ≡ regs.old) × (mem.new.pages ≡ mem.old.pages))) }
    ensures count { page_count mem.new.pages ≡ page_count mem.old.pages }
{
    let least = Amo::MinUnsigned;
    let greatest = Amo::MaxUnsigned;
    match found {
        Small::AmoswapW { rd, rs1, rs2, .. } => replace(regs, mem, Amo::Swap, false, rd, rs1, rs2),
        Small::AmoswapD { rd, rs1, rs2, .. } => replace(regs, mem, Amo::Swap, true, rd, rs1, rs2),
        Small::AmoaddW { rd, rs1, rs2, .. } => replace(regs, mem, Amo::Add, false, rd, rs1, rs2),
        Small::AmoaddD { rd, rs1, rs2, .. } => replace(regs, mem, Amo::Add, true, rd, rs1, rs2),
        Small::AmoxorW { rd, rs1, rs2, .. } => replace(regs, mem, Amo::Xor, false, rd, rs1, rs2),
        Small::AmoxorD { rd, rs1, rs2, .. } => replace(regs, mem, Amo::Xor, true, rd, rs1, rs2),
        Small::AmoandW { rd, rs1, rs2, .. } => replace(regs, mem, Amo::And, false, rd, rs1, rs2),
        Small::AmoandD { rd, rs1, rs2, .. } => replace(regs, mem, Amo::And, true, rd, rs1, rs2),
        Small::AmoorW { rd, rs1, rs2, .. } => replace(regs, mem, Amo::Or, false, rd, rs1, rs2),
        Small::AmoorD { rd, rs1, rs2, .. } => replace(regs, mem, Amo::Or, true, rd, rs1, rs2),
        Small::AmominW { rd, rs1, rs2, .. } => replace(regs, mem, Amo::Min, false, rd, rs1, rs2),
        Small::AmominD { rd, rs1, rs2, .. } => replace(regs, mem, Amo::Min, true, rd, rs1, rs2),
        Small::AmomaxW { rd, rs1, rs2, .. } => replace(regs, mem, Amo::Max, false, rd, rs1, rs2),
        Small::AmomaxD { rd, rs1, rs2, .. } => replace(regs, mem, Amo::Max, true, rd, rs1, rs2),
        Small::AmominuW { rd, rs1, rs2, .. } => replace(regs, mem, least, false, rd, rs1, rs2),
        Small::AmominuD { rd, rs1, rs2, .. } => replace(regs, mem, least, true, rd, rs1, rs2),
        Small::AmomaxuW { rd, rs1, rs2, .. } => replace(regs, mem, greatest, false, rd, rs1, rs2),
        Small::AmomaxuD { rd, rs1, rs2, .. } => replace(regs, mem, greatest, true, rd, rs1, rs2),
        _ => Ok(Event::Killed(4)),
    }
}

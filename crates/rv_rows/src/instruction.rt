//! Instructions as an assembler reads them.

use crate::fault::{Fault, Why};
use crate::number::{register, value};
use rv_loops::below::Instr;
use std::alloc::Global;

/// Those without operands.
fn alone(name: &str) -> Option<Instr> {
    match name {
        "fence" => Some(Instr::Fence),
        "ecall" => Some(Instr::Ecall),
        "ebreak" => Some(Instr::Ebreak),
        _ => None,
    }
}

/// Those of a register and a number: an upper part without its twelve zeros, or a distance.
fn on_number(name: &str, rd: u8, number: u64) -> Option<Instr> {
    let imm = number.cast_signed();
    if name == "jal" {
        return Some(Instr::Jal { rd, imm });
    }
    if number >= 0x10_0000 {
        return None;
    }
    let upper = number as u32 * 4096;
    let imm = i64::from(upper.cast_signed());
    match name {
        "lui" => Some(Instr::Lui { rd, imm }),
        "auipc" => Some(Instr::Auipc { rd, imm }),
        _ => None,
    }
}

/// Those of a register and a place in memory, or where to jump to.
fn on_place(name: &str, register: u8, imm: i64, rs1: u8) -> Option<Instr> {
    let (rd, rs2, order) = (register, register, 0);
    match name {
        "lb" => Some(Instr::Lb { rd, rs1, imm }),
        "lh" => Some(Instr::Lh { rd, rs1, imm }),
        "lw" => Some(Instr::Lw { rd, rs1, imm }),
        "ld" => Some(Instr::Ld { rd, rs1, imm }),
        "lbu" => Some(Instr::Lbu { rd, rs1, imm }),
        "lhu" => Some(Instr::Lhu { rd, rs1, imm }),
        "lwu" => Some(Instr::Lwu { rd, rs1, imm }),
        "sb" => Some(Instr::Sb { rs1, rs2, imm }),
        "sh" => Some(Instr::Sh { rs1, rs2, imm }),
        "sw" => Some(Instr::Sw { rs1, rs2, imm }),
        "sd" => Some(Instr::Sd { rs1, rs2, imm }),
        "jalr" => Some(Instr::Jalr { rd, rs1, imm }),
        _ if imm != 0 => None,
        _ => match ordered(name) {
            ("lr.w", order) => Some(Instr::LrW { rd, rs1, order }),
            ("lr.d", order) => Some(Instr::LrD { rd, rs1, order }),
            _ => None,
        },
    }
}

/// Those of three registers.
fn on_registers(name: &str, rd: u8, rs1: u8, rs2: u8) -> Option<Instr> {
    match name {
        "add" => Some(Instr::Add { rd, rs1, rs2 }),
        "sub" => Some(Instr::Sub { rd, rs1, rs2 }),
        "sll" => Some(Instr::Sll { rd, rs1, rs2 }),
        "slt" => Some(Instr::Slt { rd, rs1, rs2 }),
        "sltu" => Some(Instr::Sltu { rd, rs1, rs2 }),
        "xor" => Some(Instr::Xor { rd, rs1, rs2 }),
        "srl" => Some(Instr::Srl { rd, rs1, rs2 }),
        "sra" => Some(Instr::Sra { rd, rs1, rs2 }),
        "or" => Some(Instr::Or { rd, rs1, rs2 }),
        "and" => Some(Instr::And { rd, rs1, rs2 }),
        "mul" => Some(Instr::Mul { rd, rs1, rs2 }),
        "mulh" => Some(Instr::Mulh { rd, rs1, rs2 }),
        "mulhsu" => Some(Instr::Mulhsu { rd, rs1, rs2 }),
        "mulhu" => Some(Instr::Mulhu { rd, rs1, rs2 }),
        "div" => Some(Instr::Div { rd, rs1, rs2 }),
        "divu" => Some(Instr::Divu { rd, rs1, rs2 }),
        "rem" => Some(Instr::Rem { rd, rs1, rs2 }),
        "remu" => Some(Instr::Remu { rd, rs1, rs2 }),
        _ => on_words(name, rd, rs1, rs2),
    }
}

/// Those of three registers, on 32 bits.
fn on_words(name: &str, rd: u8, rs1: u8, rs2: u8) -> Option<Instr> {
    match name {
        "addw" => Some(Instr::Addw { rd, rs1, rs2 }),
        "subw" => Some(Instr::Subw { rd, rs1, rs2 }),
        "sllw" => Some(Instr::Sllw { rd, rs1, rs2 }),
        "srlw" => Some(Instr::Srlw { rd, rs1, rs2 }),
        "sraw" => Some(Instr::Sraw { rd, rs1, rs2 }),
        "mulw" => Some(Instr::Mulw { rd, rs1, rs2 }),
        "divw" => Some(Instr::Divw { rd, rs1, rs2 }),
        "divuw" => Some(Instr::Divuw { rd, rs1, rs2 }),
        "remw" => Some(Instr::Remw { rd, rs1, rs2 }),
        "remuw" => Some(Instr::Remuw { rd, rs1, rs2 }),
        _ => None,
    }
}

/// Those of two registers and a number that computes with it.
fn on_immediate(name: &str, rd: u8, rs1: u8, imm: i64) -> Option<Instr> {
    match name {
        "addi" => Some(Instr::Addi { rd, rs1, imm }),
        "slti" => Some(Instr::Slti { rd, rs1, imm }),
        "sltiu" => Some(Instr::Sltiu { rd, rs1, imm }),
        "xori" => Some(Instr::Xori { rd, rs1, imm }),
        "ori" => Some(Instr::Ori { rd, rs1, imm }),
        "andi" => Some(Instr::Andi { rd, rs1, imm }),
        "slli" => Some(Instr::Slli { rd, rs1, imm }),
        "srli" => Some(Instr::Srli { rd, rs1, imm }),
        "srai" => Some(Instr::Srai { rd, rs1, imm }),
        "addiw" => Some(Instr::Addiw { rd, rs1, imm }),
        "slliw" => Some(Instr::Slliw { rd, rs1, imm }),
        "srliw" => Some(Instr::Srliw { rd, rs1, imm }),
        "sraiw" => Some(Instr::Sraiw { rd, rs1, imm }),
        _ => None,
    }
}

/// Those of two registers and a distance.
fn on_distance(name: &str, rs1: u8, rs2: u8, imm: i64) -> Option<Instr> {
    match name {
        "beq" => Some(Instr::Beq { rs1, rs2, imm }),
        "bne" => Some(Instr::Bne { rs1, rs2, imm }),
        "blt" => Some(Instr::Blt { rs1, rs2, imm }),
        "bge" => Some(Instr::Bge { rs1, rs2, imm }),
        "bltu" => Some(Instr::Bltu { rs1, rs2, imm }),
        "bgeu" => Some(Instr::Bgeu { rs1, rs2, imm }),
        _ => None,
    }
}

/// The name of an atomic instruction without its order, and the order.
fn ordered(name: &str) -> (&str, u8) {
    if let Some(plain) = name.strip_suffix(".aqrl") {
        return (plain, 3);
    }
    if let Some(plain) = name.strip_suffix(".aq") {
        return (plain, 2);
    }
    match name.strip_suffix(".rl") {
        Some(plain) => (plain, 1),
        None => (name, 0),
    }
}

/// Those of two registers and the register with a place in memory.
#[rattlefmt::skip]
fn on_memory(name: &str, rd: u8, rs2: u8, rs1: u8) -> Option<Instr> {
    let (plain, order) = ordered(name);
    match plain {
        "sc.w" => Some(Instr::ScW { rd, rs1, rs2, order }),
        "sc.d" => Some(Instr::ScD { rd, rs1, rs2, order }),
        "amoswap.w" => Some(Instr::AmoswapW { rd, rs1, rs2, order }),
        "amoswap.d" => Some(Instr::AmoswapD { rd, rs1, rs2, order }),
        "amoadd.w" => Some(Instr::AmoaddW { rd, rs1, rs2, order }),
        "amoadd.d" => Some(Instr::AmoaddD { rd, rs1, rs2, order }),
        "amoxor.w" => Some(Instr::AmoxorW { rd, rs1, rs2, order }),
        "amoxor.d" => Some(Instr::AmoxorD { rd, rs1, rs2, order }),
        "amoand.w" => Some(Instr::AmoandW { rd, rs1, rs2, order }),
        "amoand.d" => Some(Instr::AmoandD { rd, rs1, rs2, order }),
        "amoor.w" => Some(Instr::AmoorW { rd, rs1, rs2, order }),
        "amoor.d" => Some(Instr::AmoorD { rd, rs1, rs2, order }),
        "amomin.w" => Some(Instr::AmominW { rd, rs1, rs2, order }),
        "amomin.d" => Some(Instr::AmominD { rd, rs1, rs2, order }),
        "amomax.w" => Some(Instr::AmomaxW { rd, rs1, rs2, order }),
        "amomax.d" => Some(Instr::AmomaxD { rd, rs1, rs2, order }),
        "amominu.w" => Some(Instr::AmominuW { rd, rs1, rs2, order }),
        "amominu.d" => Some(Instr::AmominuD { rd, rs1, rs2, order }),
        "amomaxu.w" => Some(Instr::AmomaxuW { rd, rs1, rs2, order }),
        "amomaxu.d" => Some(Instr::AmomaxuD { rd, rs1, rs2, order }),
        _ => None,
    }
}

/// A place in memory, as `8(a0)` or `(a0)`: the number, and the register.
fn place(word: &str) -> Result<Option<(i64, u8)>, Fault<'_>> {
    let Some((offset, rest)) = word.split_once('(') else {
        return Ok(None);
    };
    let Some(base) = rest.strip_suffix(')') else {
        return Ok(None);
    };
    let base = register(base)?;
    if offset.is_empty() {
        return Ok(Some((0, base)));
    }
    Ok(Some((value(offset)?.cast_signed(), base)))
}

/// The instruction of this name with two operands.
fn with_two<'a>(name: &str, first: &'a str, second: &'a str) -> Result<Option<Instr>, Fault<'a>> {
    let first = register(first)?;
    match place(second)? {
        Some((imm, base)) => Ok(on_place(name, first, imm, base)),
        None => Ok(on_number(name, first, value(second)?)),
    }
}

/// The instruction of this name with three operands.
fn with_three<'a>(
    name: &str,
    first: &'a str,
    second: &'a str,
    third: &'a str,
) -> Result<Option<Instr>, Fault<'a>> {
    let first = register(first)?;
    let second = register(second)?;
    match place(third)? {
        Some((0, base)) => return Ok(on_memory(name, first, second, base)),
        Some(_) => return Ok(None),
        None => {}
    }
    if let Ok(third) = register(third) {
        return Ok(on_registers(name, first, second, third));
    }
    let imm = value(third)?.cast_signed();
    match on_distance(name, first, second, imm) {
        Some(branch) => Ok(Some(branch)),
        None => Ok(on_immediate(name, first, second, imm)),
    }
}

/// The instruction of a text. Its operands can be out of their ranges.
pub fn instruction(alloc: Global, text: &str) -> Result<Instr, Fault<'_>> {
    let (name, rest) = text.split_once(' ').unwrap_or((text, ""));
    let words: Vec<&str> = rest.split(',').map(|word| word.trim()).collect(alloc)?;
    let found = match words.as_slice() {
        [""] => alone(name),
        [first, second] => with_two(name, first, second)?,
        [first, second, third] => with_three(name, first, second, third)?,
        _ => None,
    };
    found.ok_or(Fault::new(Why::Instruction, text))
}

//! The rows. Each is a line; lines without a word, and those that begin with `#`, are passed over.
//!
//! - `word W INSTRUCTION`: the word of the instruction is W, and W is read as that instruction.
//! - `read W INSTRUCTION`: W is read as that instruction, whose own word may be another.
//! - `none W`: no instruction has the word W.
//! - `unfit INSTRUCTION`: its operands are out of their ranges, so it has no word.
//! - `loop NAME PROGRAM`: the loop of LR and SC that does what the operation NAME does, as `add.d`, has
//!   the code of the program, with the registers x10, x11, x12, x13 and x14.
//! - `step INSTRUCTION | BEFORE | AFTER`: what one instruction does.
//! - `run PROGRAM | BEFORE | AFTER`: what turns of it do.
//!
//! An instruction is written as for an assembler, without labels: `lb x5, -2048(x6)`, `beq a0, a1, 8`. A
//! program has a `;` between each two, and may have `.word W` in the place of one. Numbers are decimal,
//! or hexadecimal behind `0x`.
//!
//! The instructions stand at 0x1000, where a page with all rights begins. Of a page at 0x4000 the bytes
//! can only be read, and of one at 0x6000 only written; all of both are marked. No other byte is there.
//! BEFORE says what is there before, by settings with blanks between them; what it doesn't say is 0 (but 99
//! stands in the place of register 0, which nothing reads), and the pc is 0x1000:
//!
//! - `a0=5`: a register; `pc=0x1002`; `[0x1800]=5`: the doubleword at an address of the first page;
//! - `held=0x1800:d`: a doubleword is reserved, with `:w` a word, and with `held=none` nothing;
//! - `marked`: all bytes of the first page are marked;
//! - `fuel=2`: a first turn does two instructions, and else as many as there are; `again=1`: a second
//!   turn does one more, and else there is none.
//!
//! AFTER says what is different afterwards, by the first two of these lines, and by:
//!
//! - `call`: it ended with a call; `killed=11`: with this signal; else it goes on;
//! - `done=2`: how many instructions were done, and else as many as there are;
//! - `read`: a marked byte was read.
//!
//! Where AFTER doesn't say the pc, it stands behind the instructions that were done, or at the last of them
//! where that is a call or kills.
//!
//! - `memory ACTION; ACTION ..`: what actions on a memory answer, in order. There is one without pages, and
//!   it is in use.
//!
//! Behind an action stands ` = ANSWER`, or none where that is `ok`:
//!
//! - `map AT PAGES RIGHTS`, with letters of `rwx`, `full` past a limit; `unmap AT PAGES`;
//!   `protect AT PAGES RIGHTS`, `bad` where a page isn't there;
//! - `write AT BYTES`; `read AT BYTES` and `execute AT BYTES` compare as many bytes, read for that use;
//!   `text AT MAX BYTES` compares a text, `long` where no zero ends it; each of them is `bad` where a byte
//!   isn't there, or lacks the right. BYTES are those of a word behind `'`, or as `1*4098` one byte many times;
//! - `can read AT COUNT`, `can write ..`, `can execute ..` and `any AT PAGES`: `yes` or `no`;
//!   `place FROM END PAGES`: the lowest place, or `no`; `pages` and `free`: how many there are, and how many
//!   more there may be;
//! - `mark FROM TO`; `marks`: whether one was read, `yes` or `no`;
//! - `new` adds a memory, which is then in use; `fork` adds a copy; `use K` takes up the one at place K.

use crate::fault::{Fault, Why};
use crate::instruction::instruction;
use crate::memory::memory_row;
use crate::number::small;
use crate::outcome::Outcome;
use crate::played::Plan;
use crate::program::code;
use crate::state::{State, put};
use rv_loops::below::{Asm, decode, encode, valid};
use rv_loops::{LoopOp, LoopRegs};
use std::alloc::{AllocError, Global};

const LOOP_REGS: LoopRegs = LoopRegs {
    rd: 10,
    rs1: 11,
    rs2: 12,
    value: 13,
    failed: 14,
};

/// What stands before the first blank, and behind it.
fn cut(text: &str) -> (&str, &str) {
    match text.split_once(' ') {
        Some((first, rest)) => (first, rest.trim()),
        None => (text, ""),
    }
}

/// The word that stands for an instruction.
fn word_of(alloc: Global, text: &str) -> Result<u32, Fault<'_>> {
    let found = instruction(alloc, text)?;
    if !valid(found) {
        return Err(Fault::new(Why::Range, text));
    }
    Ok(encode(found))
}

fn word_row(alloc: Global, rest: &str) -> Result<String, Fault<'_>> {
    let (number, text) = cut(rest);
    let word = small(number)?;
    let got = word_of(alloc, text)?;
    let mut told = read_as(alloc, word, Some(got))?;
    if got != word {
        write!(told, "{word:#010x} wanted, got {got:#010x}; ")?;
    }
    Ok(told)
}

/// What differs where a word is read as an instruction, which is told by the word that stands for it.
fn read_as(alloc: Global, word: u32, wanted: Option<u32>) -> Result<String, AllocError> {
    let mut told = String::new(alloc);
    let got = match decode(word) {
        Some(found) => Some(encode(found)),
        None => None,
    };
    if got != wanted {
        write!(told, "{wanted:?} wanted, got {got:?}; ")?;
    }
    Ok(told)
}

fn read_row(alloc: Global, rest: &str) -> Result<String, Fault<'_>> {
    let (number, text) = cut(rest);
    let wanted = word_of(alloc, text)?;
    Ok(read_as(alloc, small(number)?, Some(wanted))?)
}

fn unfit_row(alloc: Global, text: &str) -> Result<String, Fault<'_>> {
    let found = instruction(alloc, text)?;
    let mut told = String::new(alloc);
    if valid(found) {
        let word = encode(found);
        write!(told, "no word wanted, got {word:#010x}; ")?;
    }
    Ok(told)
}

/// The operation of a loop, and whether it is of doublewords.
fn operation(name: &str) -> Option<(LoopOp, bool)> {
    let (op, width) = name.split_once('.')?;
    let wide = match width {
        "d" => true,
        "w" => false,
        _ => return None,
    };
    match op {
        "swap" => Some((LoopOp::Swap, wide)),
        "add" => Some((LoopOp::Add, wide)),
        "xor" => Some((LoopOp::Xor, wide)),
        "and" => Some((LoopOp::And, wide)),
        "or" => Some((LoopOp::Or, wide)),
        _ => None,
    }
}

fn loop_row(alloc: Global, rest: &str) -> Result<String, Fault<'_>> {
    let (name, text) = cut(rest);
    let (op, wide) = operation(name).ok_or(Fault::new(Why::Parts, name))?;
    let wanted = code(alloc, text)?;
    let mut asm = Asm::new(alloc);
    rv_loops::put(&mut asm, op, wide, LOOP_REGS)?;
    let got = asm.finish();
    let mut told = String::new(alloc);
    match got {
        Ok(got) => {
            if got.as_slice() != wanted.as_slice() {
                let (wanted, got) = (wanted.as_slice(), got.as_slice());
                write!(told, "{wanted:?} wanted, got {got:?}; ")?;
            }
        }
        Err(_fault) => write!(told, "a program wanted, got none; ")?,
    }
    Ok(told)
}

/// The plan of a program and of what is there before, and how many instructions it has.
fn plan_of<'a>(alloc: Global, text: &'a str, before: &'a str) -> Result<(Plan, u32), Fault<'a>> {
    let bytes = code(alloc, text)?;
    let mut state = State::new();
    if !put(&mut state.page, 0, bytes.as_slice()) {
        return Err(Fault::new(Why::TooLong, text));
    }
    let count = u32::try_from(bytes.len() / 4).ok();
    let count = count.ok_or(Fault::new(Why::TooLong, text))?;
    let mut plan = Plan {
        state,
        marked: false,
        fuel: count,
        again: 0,
    };
    plan.set(before)?;
    Ok((plan, count))
}

/// The three parts between the bars.
fn parts(alloc: Global, row: &str) -> Result<(&str, &str, &str), Fault<'_>> {
    let parts: Vec<&str> = row.split('|').map(|part| part.trim()).collect(alloc)?;
    match parts.as_slice() {
        [text, before, after] => Ok((text, before, after)),
        _ => Err(Fault::new(Why::Parts, row)),
    }
}

fn step_row(alloc: Global, rest: &str) -> Result<String, Fault<'_>> {
    let (text, before, after) = parts(alloc, rest)?;
    let (plan, _count) = plan_of(alloc, text, before)?;
    let wanted = Outcome::wanted(plan.state, 1, after)?;
    let got = plan.stepped(alloc)?;
    Ok(wanted.differences(alloc, &got)?)
}

fn run_row(alloc: Global, rest: &str) -> Result<String, Fault<'_>> {
    let (text, before, after) = parts(alloc, rest)?;
    let (plan, count) = plan_of(alloc, text, before)?;
    let wanted = Outcome::wanted(plan.state, count, after)?;
    let got = plan.ran(alloc)?;
    Ok(wanted.differences(alloc, &got)?)
}

/// What of a row differs, each with what is wanted and what came; nothing where the row agrees.
pub fn judged(alloc: Global, row: &str) -> Result<String, Fault<'_>> {
    let (kind, rest) = cut(row);
    match kind {
        "word" => word_row(alloc, rest),
        "read" => read_row(alloc, rest),
        "none" => Ok(read_as(alloc, small(rest)?, None)?),
        "unfit" => unfit_row(alloc, rest),
        "loop" => loop_row(alloc, rest),
        "step" => step_row(alloc, rest),
        "run" => run_row(alloc, rest),
        "memory" => memory_row(alloc, rest),
        _ => Err(Fault::new(Why::Kind, kind)),
    }
}

//! From the items of a program to its code.
ghost use Rattle.std.specs.Prelude.{◌≡◌, ◌+◌, ◌≤◌, ◌^◌, ◌++◌, None, All, IfOk, OnOk};
ghost use Rattle.rv_table.specs.Encoding.{IsValid};
ghost use Rattle.rv_asm.specs.Program.{IsInside, IsSound, total};
ghost use Rattle.rv_asm.specs.Assembly as spec;

use crate::distance::{distance, lower, place_of, upper};
use crate::item::Item;
use rv_table::{Instr, encode};
use std::alloc::{AllocError, Global};

/// The label of the first use of one that isn't bound.
pub(crate) fn first_unbound(items: &[Item], places: &[Option<u64>]) -> Option<u32>
    ensures { result ≡ spec.first_unbound places.now items.now }
{
    for item in items {
        if let Some(label) = item.label() {
            if place_of(places, label).is_none() {
                return Some(label);
            }
        }
    }
    None
}

/// The label of the first use of one that is out of reach.
pub(crate) fn first_far(items: &[Item], places: &[Option<u64>]) -> Option<u32>
    requires { IsSound items.now places.now (total items.now) }
    ensures { result ≡ spec.first_far places.now 0 items.now }
{
    let mut at = 0;
    for item in items {
        if let Some(label) = item.label() {
            if !item.reaches(distance(places, at, label)) {
                return Some(label);
            }
        }
        at += item.size();
    }
    None
}

// A branch with this distance.
fn aimed(branch: Instr, imm: i64) -> Instr
    ensures { result ≡ spec.aimed branch imm }
{
    match branch {
        Instr::Beq { rs1, rs2, .. } => Instr::Beq { rs1, rs2, imm },
        Instr::Bne { rs1, rs2, .. } => Instr::Bne { rs1, rs2, imm },
        Instr::Blt { rs1, rs2, .. } => Instr::Blt { rs1, rs2, imm },
        Instr::Bge { rs1, rs2, .. } => Instr::Bge { rs1, rs2, imm },
        Instr::Bltu { rs1, rs2, .. } => Instr::Bltu { rs1, rs2, imm },
        Instr::Bgeu { rs1, rs2, .. } => Instr::Bgeu { rs1, rs2, imm },
        other => other,
    }
}

// Adds the word of an instruction.
fn put_word(code: &mut Vec<u8>, i: Instr) -> Result<(), AllocError>
    requires { IsValid i }
    ensures { OnOk result (code.new.items ≡ code.old.items ++ spec.word i) }
{
    code.extend_from_slice(&encode(i).to_le_bytes())?;
    Ok(())
}

// Adds the bytes of an item that stands `at` bytes behind the start.
fn put_item(
    code: &mut Vec<u8>,
    item: &Item,
    at: u64,
    places: &[Option<u64>],
) -> Result<(), AllocError>
    requires here { at ≤ 2 ^ 62 }
    requires inside { All (IsInside (2 ^ 62)) places.now }
    requires words { spec.HasWords places.now at item.now }
    ensures { OnOk result (code.new.items ≡ code.old.items ++ spec.bytes_of places.now at item.now) }
{
    match item {
        Item::Plain(i) => put_word(code, *i),
        Item::Jump { rd, to } => {
            let imm = distance(places, at, *to);
            put_word(code, Instr::Jal { rd: *rd, imm })
        }
        Item::Branch { instr, to } => {
            let imm = distance(places, at, *to);
            put_word(code, aimed(*instr, imm))
        }
        Item::Address { rd, of } => {
            let to = distance(places, at, *of);
            put_word(
                code,
                Instr::Auipc {
                    rd: *rd,
                    imm: upper(to),
                },
            )?;
            put_word(
                code,
                Instr::Addi {
                    rd: *rd,
                    rs1: *rd,
                    imm: lower(to),
                },
            )
        }
        Item::Data(bytes) => {
            code.extend_from_slice(bytes.as_slice())?;
            Ok(())
        }
    }
}

/// The code of a program without faults.
pub(crate) fn assemble(
    alloc: Global,
    items: &[Item],
    places: &[Option<u64>],
) -> Result<Vec<u8>, AllocError>
    requires sound { IsSound items.now places.now (total items.now) }
    requires reached { spec.first_far places.now 0 items.now ≡ None }
    ensures { IfOk result (λ code. code.items ≡ spec.code_from places.now 0 items.now) }
{
    let mut code = Vec::new(alloc);
    let mut at = 0;
    for item in items {
        put_item(&mut code, item, at, places)?;
        at += item.size();
    }
    Ok(code)
}

//! The blocks of steps.
ghost use Rattle.std.specs.Prelude.{◌≡◌, ◌+◌, ◌<◌, ◌≤◌, ◌^◌, [], ◌∷◌, ◌++◌, None, All, length, IfOk, OnOk};
ghost use Rattle.rv_asm.specs.rv_table.Encoding.{FitsWidth, IsValid};
ghost use Rattle.pr_gen.specs.Draft.{Grows, IsOpen};
ghost use Rattle.pr_gen.specs.Steps.{IsEarlier, IsStepEarlier, room_in, step_room};

use crate::code::Code;
use crate::constants::{ANSWERS, CLONE, EMPTY_LIST, SHOW_CONTENT, SHOW_NUMBER};
use crate::instructions::{A0, A7, BUF, CLONED, RA, SP, ZERO, instr};
use crate::steps::{Arg, ProbeStep, Show, Who};
use rv_asm::below::{Instr, NoMemory};

// Adds the eleven instructions that put a number together from its bits: nine, and five times eleven.
fn load_bits(code: &mut Code, rd: u8, number: u64) -> Result<(), NoMemory>
    requires rd { rd < 32 }
    requires room { code.old.size < 2 ^ 31 }
    ensures { OnOk result (Grows 44 code.old code.new) }
{
    code.put(instr!(addi rd, ZERO, (number >> 55) as i64))?;
    for k in 0..5u32 {
        let bits = (number >> (44 - 11 * k)) % 2048;
        code.put(instr!(slli rd, rd, 11))?;
        code.put(instr!(addi rd, rd, bits as i64))?;
    }
    Ok(())
}

// Adds instructions that leave a number in `rd`: one or two where it is small.
fn load_number(code: &mut Code, rd: u8, number: u64) -> Result<(), NoMemory>
    requires rd { rd < 32 }
    requires room { code.old.size < 2 ^ 31 }
    ensures { OnOk result (Grows 44 code.old code.new) }
{
    let signed = number.cast_signed();
    if (-2048..2048).contains(&signed) {
        return code.put(instr!(addi rd, ZERO, signed));
    }
    if number < 0x7fff_f800 {
        let upper = (number + 2048) / 4096 * 4096;
        code.put(instr!(lui rd, upper as i64))?;
        return code.put(instr!(addi rd, rd, number as i64 - upper as i64));
    }
    load_bits(code, rd, number)
}

// Where the answer of a step stands.
fn answer_at(place: u32) -> i64
    requires { place < 256 }
    ensures { FitsWidth 12 result }
{
    ANSWERS + 8 * i64::from(place)
}

// Adds instructions that leave in `rd` an address `at` bytes behind the buffer's.
fn load_address(code: &mut Code, rd: u8, at: u64) -> Result<(), NoMemory>
    requires rd { rd < 32 }
    requires room { code.old.size < 2 ^ 30 }
    ensures { OnOk result (Grows 48 code.old code.new) }
{
    load_number(code, rd, at)?;
    code.put(instr!(add rd, rd, BUF))
}

// Adds instructions that leave an argument in `rd`. Its texts, if it has any, stand at `at`.
fn put_arg(code: &mut Code, rd: u8, arg: &Arg, at: u64) -> Result<(), NoMemory>
    requires rd { rd < 32 }
    requires earlier { IsEarlier 256 arg.now }
    requires room { code.old.size < 2 ^ 30 }
    ensures { OnOk result (Grows 48 code.old code.new) }
{
    match arg {
        Arg::Num(number) => load_number(code, rd, *number),
        Arg::List(texts) if texts.is_empty() => load_address(code, rd, EMPTY_LIST),
        Arg::Text(_) | Arg::List(_) => load_address(code, rd, at),
        Arg::Buf => code.put(instr!(addi rd, BUF, 0)),
        Arg::Answer(place) => code.put(instr!(ld rd, answer_at(*place), BUF)),
    }
}

// Adds instructions that leave the arguments in the registers from a0 on. Their texts stand from `at` up
// to the answer.
fn put_args(code: &mut Code, args: &[Arg], at: u64) -> Result<u64, NoMemory>
    requires count { length args.now ≤ 6 }
    requires earlier { All (IsEarlier 256) args.now }
    requires room { code.old.size < 2 ^ 29 }
    requires texts { at + room_in args.now ≤ 2 ^ 32 }
    ensures next { IfOk result (λ next. next ≡ at + room_in args.now) }
    ensures grows { OnOk result (Grows 288 code.old code.new) }
{
    let mut next = at;
    for (i, arg) in args.iter().enumerate() {
        put_arg(code, A0 + i as u8, arg, next)?;
        next += arg.room();
    }
    Ok(next)
}

// Adds what is shown of the answer in a0.
fn put_show(code: &mut Code, show: Show) -> Result<(), NoMemory>
    requires given { 2 < length code.old.places }
    requires room { code.old.size < 2 ^ 30 }
    ensures { OnOk result (Grows 4 code.old code.new) }
{
    match show {
        Show::Nothing => Ok(()),
        Show::Number => code.jump(RA, SHOW_NUMBER),
        Show::Content => code.jump(RA, SHOW_CONTENT),
    }
}

// Keeps the answer of a call in mind.
fn put_answer(code: &mut Code, place: u32, number: u16) -> Result<(), NoMemory>
    requires place { place < 256 }
    requires room { code.old.size < 2 ^ 30 }
    ensures { OnOk result (Grows 8 code.old code.new) }
{
    code.put(instr!(sd A0, answer_at(place), BUF))?;
    if number == CLONE {
        code.put(instr!(addi CLONED, A0, 0))?;
    }
    Ok(())
}

// Adds a call: its arguments, its number, itself, and what is done with its answer.
fn put_call(
    code: &mut Code,
    place: u32,
    number: u16,
    args: &[Arg; 6],
    show: Show,
    at: u64,
) -> Result<u64, NoMemory>
    requires place { place < 256 }
    requires earlier { All (IsEarlier 256) args.now }
    requires given { 2 < length code.old.places }
    requires room { code.old.size < 2 ^ 28 }
    requires texts { at + room_in args.now ≤ 2 ^ 32 }
    ensures next { IfOk result (λ next. next ≡ at + room_in args.now) }
    ensures grows { OnOk result (Grows 348 code.old code.new) }
{
    let next = put_args(code, args, at)?;
    load_number(code, A7, u64::from(number))?;
    code.put(instr!(ecall))?;
    put_answer(code, place, number)?;
    put_show(code, show)?;
    Ok(next)
}

// Begins a block that not each process runs: a branch into it, and a jump to the label behind it.
fn put_guard(code: &mut Code, into: Instr) -> Result<u32, NoMemory>
    requires valid { IsValid into }
    requires labels { length code.old.places < 1000 }
    requires room { code.old.size < 2 ^ 30 }
    ensures label { IfOk result (λ behind. behind ≡ length code.old.places) }
    ensures places { OnOk result (code.new.places ≡ code.old.places ++ None ∷ []) }
    ensures size { OnOk result (code.new.size ≡ code.old.size + 8) }
{
    let behind = code.label()?;
    code.put(into)?;
    code.jump(ZERO, behind)?;
    Ok(behind)
}

/// Adds the block of a step. Its texts stand from `at` up to the answer.
pub(crate) fn put_step(
    code: &mut Code,
    place: u32,
    step: &ProbeStep,
    at: u64,
) -> Result<u64, NoMemory>
    requires place { place < 256 }
    requires earlier { IsStepEarlier place step.now }
    requires open { IsOpen code.old.places }
    requires labels { length code.old.places < 1000 }
    requires room { code.old.size < 2 ^ 27 }
    requires texts { at + step_room step.now ≤ 2 ^ 32 }
    ensures next { IfOk result (λ next. next ≡ at + step_room step.now) }
    ensures open { OnOk result (IsOpen code.new.places) }
    ensures labels { OnOk result (length code.new.places ≤ length code.old.places + 1) }
    ensures kept { OnOk result (code.old.size ≤ code.new.size) }
    ensures size { OnOk result (code.new.size ≤ code.old.size + 356) }
{
    match step {
        ProbeStep::SetSp(sp) => {
            load_number(code, SP, *sp)?;
            Ok(at)
        }
        ProbeStep::Call {
            number,
            args,
            who,
            show,
        } => match who {
            Who::All => put_call(code, place, *number, args, *show, at),
            Who::Child => {
                let behind = put_guard(code, instr!(beq CLONED, ZERO, 8))?;
                let next = put_call(code, place, *number, args, *show, at)?;
                code.bind(behind);
                Ok(next)
            }
            Who::Parent => {
                let behind = put_guard(code, instr!(bne CLONED, ZERO, 8))?;
                let next = put_call(code, place, *number, args, *show, at)?;
                code.bind(behind);
                Ok(next)
            }
        },
    }
}

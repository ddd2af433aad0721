//! The routines that show an answer. Each takes it in a0 and uses a0 to a2, a7 and t0 to t3.
ghost use Rattle.std.specs.Prelude.{◌<◌, ◌^◌, length, OnOk};
ghost use Rattle.pr_gen.specs.Draft.{Grows};

use crate::code::Code;
use crate::constants::{BUF_BYTES, NUMBER_LAST, SHOW_NUMBER, WRITE};
use crate::instructions::{A0, A1, A2, A7, BUF, RA, T0, T1, T2, T3, ZERO, instr};
use rv_asm::below::{Instr, NoMemory};

/// The code of a newline.
const NEWLINE: i64 = 10;

// Adds a call of `write` to descriptor 1, of the a2 bytes from a1 on.
fn put_write(code: &mut Code) -> Result<(), NoMemory>
    requires { code.old.size < 2 ^ 30 }
    ensures { OnOk result (Grows 12 code.old code.new) }
{
    code.put(instr!(addi A0, ZERO, 1))?;
    code.put(instr!(addi A7, ZERO, WRITE))?;
    code.put(instr!(ecall))
}

// Leaves in t2 how far from 0 the number in a0 is, and in t0 the address of the newline behind its text.
fn put_number_start(code: &mut Code) -> Result<(), NoMemory>
    requires { code.old.size < 2 ^ 30 }
    ensures { OnOk result (Grows 32 code.old code.new) }
{
    code.put(instr!(lui T0, BUF_BYTES))?;
    code.put(instr!(add T0, T0, BUF))?;
    code.put(instr!(addi T0, T0, NUMBER_LAST))?;
    code.put(instr!(addi T1, ZERO, NEWLINE))?;
    code.put(instr!(sb T1, 0, T0))?;
    code.put(instr!(addi T2, A0, 0))?;
    code.put(instr!(bge A0, ZERO, 8))?; // over the next one
    code.put(instr!(sub T2, ZERO, A0))
}

// Writes the digits of t2 from t0 down, the last one first, and a minus sign where a0 is negative. The
// base, ten, stands in t1: it is the newline's code too.
fn put_digits(code: &mut Code) -> Result<(), NoMemory>
    requires { code.old.size < 2 ^ 30 }
    ensures { OnOk result (Grows 40 code.old code.new) }
{
    code.put(instr!(remu T3, T2, T1))?;
    code.put(instr!(addi T3, T3, i64::from(b'0')))?;
    code.put(instr!(addi T0, T0, -1))?;
    code.put(instr!(sb T3, 0, T0))?;
    code.put(instr!(divu T2, T2, T1))?;
    code.put(instr!(bne T2, ZERO, -20))?; // back to the first one
    code.put(instr!(bge A0, ZERO, 16))?; // over the next three
    code.put(instr!(addi T0, T0, -1))?;
    code.put(instr!(addi T3, ZERO, i64::from(b'-')))?;
    code.put(instr!(sb T3, 0, T0))
}

/// Adds the routine that shows a number: its decimal digits and a newline.
pub(crate) fn put_show_number(code: &mut Code) -> Result<(), NoMemory>
    requires { code.old.size < 2 ^ 29 }
    ensures { OnOk result (Grows 108 code.old code.new) }
{
    put_number_start(code)?;
    put_digits(code)?;
    code.put(instr!(addi A1, T0, 0))?;
    code.put(instr!(lui A2, BUF_BYTES))?;
    code.put(instr!(add A2, A2, BUF))?;
    code.put(instr!(addi A2, A2, NUMBER_LAST + 1))?;
    code.put(instr!(sub A2, A2, T0))?;
    put_write(code)?;
    code.put(instr!(jalr ZERO, 0, RA))
}

// Shows a negative answer as a number, and leaves in a0 how many bytes are shown of another one.
fn put_content_start(code: &mut Code) -> Result<(), NoMemory>
    requires given { 1 < length code.old.places }
    requires room { code.old.size < 2 ^ 30 }
    ensures { OnOk result (Grows 20 code.old code.new) }
{
    code.put(instr!(bge A0, ZERO, 8))?; // over the next one
    code.jump(ZERO, SHOW_NUMBER)?;
    code.put(instr!(lui T0, BUF_BYTES))?;
    code.put(instr!(bge T0, A0, 8))?; // over the next one
    code.put(instr!(addi A0, T0, 0))
}

/// Adds the routine that shows as many bytes of the buffer as the answer says, and a newline. The byte
/// at which the newline stands is put back.
pub(crate) fn put_show_content(code: &mut Code) -> Result<(), NoMemory>
    requires given { 1 < length code.old.places }
    requires room { code.old.size < 2 ^ 29 }
    ensures { OnOk result (Grows 68 code.old code.new) }
{
    put_content_start(code)?;
    code.put(instr!(add T1, A0, BUF))?;
    code.put(instr!(lbu T2, 0, T1))?;
    code.put(instr!(addi T0, ZERO, NEWLINE))?;
    code.put(instr!(sb T0, 0, T1))?;
    code.put(instr!(addi A2, A0, 1))?;
    code.put(instr!(addi A1, BUF, 0))?;
    put_write(code)?;
    code.put(instr!(sb T2, 0, T1))?;
    code.put(instr!(jalr ZERO, 0, RA))
}

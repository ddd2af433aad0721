//! A probe as a file.
ghost use Rattle.std.specs.Prelude.{◌≡◌, ◌+◌, ◌<◌, ◌≤◌, ◌^◌, None, [], ◌∷◌, length, IfOk, OnOk};
ghost use Rattle.elf_write.specs.elf_read.Rules.{first_broken};
ghost use Rattle.pr_gen.specs.Draft.{Grows, IsOpen};
ghost use Rattle.pr_gen.specs.Steps.{IsProbe, AreEarlier, room};

use crate::calls::put_step;
use crate::code::Code;
use crate::constants::{END, EXIT, SHOW_CONTENT, SHOW_NUMBER, TEXTS};
use crate::data::data_of;
use crate::instructions::{A0, A7, BUF, CLONED, ZERO, instr};
use crate::showing::{put_show_content, put_show_number};
use crate::steps::ProbeStep;
use elf_write::write;
use rv_asm::below::{Bytes, Instr, NoMemory};
use std::alloc::Global;

/// Where the code begins in memory.
const CODE_ADDRESS: u64 = 0x10000;

// Begins the code: the buffer's address, and that no clone answered yet. The data begins where the code
// ends, and the buffer 2,048 bytes behind that.
fn start(alloc: Global) -> Result<Code, NoMemory>
    ensures places { IfOk result (λ code. code.places ≡ None ∷ None ∷ None ∷ []) }
    ensures size { IfOk result (λ code. code.size ≡ 20) }
{
    let mut code = Code::new(alloc);
    // END, SHOW_NUMBER and SHOW_CONTENT, which are labels 0, 1 and 2.
    code.label()?;
    code.label()?;
    code.label()?;
    code.address(BUF, END)?;
    code.put(instr!(addi BUF, BUF, 1024))?;
    code.put(instr!(addi BUF, BUF, 1024))?;
    code.put(instr!(addi CLONED, ZERO, 1))?;
    Ok(code)
}

// Adds the blocks of the steps.
fn put_steps(code: &mut Code, steps: &[ProbeStep]) -> Result<(), NoMemory>
    requires count { length steps.now ≤ 256 }
    requires earlier { AreEarlier 0 steps.now }
    requires open { IsOpen code.old.places }
    requires labels { length code.old.places ≤ 3 }
    requires begun { code.old.size ≡ 20 }
    requires texts { 4136 + room steps.now ≤ 2 ^ 32 }
    ensures open { OnOk result (IsOpen code.new.places) }
    ensures begun { OnOk result (20 ≤ code.new.size) }
    ensures size { OnOk result (code.new.size ≤ 91156) }
{
    let mut at = TEXTS;
    for (place, step) in steps.iter().enumerate() {
        at = put_step(code, place as u32, step, at)?;
    }
    Ok(())
}

// Ends the code: the call of `exit`, and the routines.
fn end(mut code: Code) -> Result<Bytes, NoMemory>
    requires open { IsOpen code.places }
    requires begun { 20 ≤ code.size }
    requires size { code.size ≤ 91156 }
    ensures some { IfOk result (λ bytes. 0 < length bytes) }
    ensures short { IfOk result (λ bytes. length bytes ≤ 100000) }
{
    code.put(instr!(addi A0, ZERO, 0))?;
    code.put(instr!(addi A7, ZERO, EXIT))?;
    code.put(instr!(ecall))?;
    code.bind(SHOW_NUMBER);
    put_show_number(&mut code)?;
    code.bind(SHOW_CONTENT);
    put_show_content(&mut code)?;
    code.fill_page()?;
    code.bind(END);
    code.finish()
}

/// A program for RISC-V, as an ELF file, that makes the steps in order and exits with 0.
///
/// There are at most 256 steps. No text holds a zero byte; there are at most 65,536 texts, those of lists
/// counted one by one, and they have at most 1,048,576 bytes together. `Arg::Answer` names an earlier
/// step. The program doesn't use the stack.
pub fn probe(alloc: Global, steps: &[ProbeStep]) -> Result<Bytes, NoMemory>
    requires { IsProbe steps.now }
    // The loader accepts it.
    ensures { IfOk result (λ file. first_broken file ≡ None) }
{
    let mut code = start(alloc)?;
    put_steps(&mut code, steps)?;
    let code = end(code)?;
    let data = data_of(alloc, steps, CODE_ADDRESS + code.len() as u64)?;
    write(alloc, code.as_slice(), &data, 0)
}

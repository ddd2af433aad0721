//! The guest's file.
ghost use Rattle.std.specs.Prelude.{◌≡◌, ◌≤◌, ◌^◌, ◌++◌, ℕ, None, All, length, map, IfOk, OnOk};
ghost use Rattle.elf_write.specs.elf_read.Rules.{first_broken};
ghost use Rattle.rv_asm.specs.rv_table.Encoding.{IsValid};
ghost use Rattle.rv_asm.specs.declared.item.Item.TheVariants.{Plain};
ghost use Rattle.rv_asm.specs.Program.{Program};
ghost use Rattle.rv_asm.specs.Assembly.{code_of};
ghost use Rattle.pr_gen.specs.Draws.{after_directories};
ghost use Rattle.pr_gen.specs.Guest.{guest, guest_data, guest_program};

use crate::draws::Draws;
use crate::program::{END, READ, RENAME, SETUP};
use crate::texts::guest_data;
use elf_write::write;
use rv_asm::below::{Bytes, Instr, NoMemory};
use rv_asm::{Asm, AsmFault};
use std::alloc::Global;

/// How many bytes the buffer has: those that are read, or what stat(2) tells.
const BUFFER: u32 = 128;

/// Adds instructions.
fn put_all(asm: &mut Asm, part: &[Instr]) -> Result<(), NoMemory>
    requires { All IsValid part.now }
    ensures { OnOk result (asm.new ≡ record asm.old { items = asm.old.items ++ map Plain part.now }) }
{
    for i in part {
        asm.put(*i)?;
    }
    Ok(())
}

/// The guest's code.
fn guest_code(alloc: Global) -> Result<Bytes, NoMemory>
    ensures code { IfOk result (λ code. code ≡ code_of guest_program) }
    ensures size { IfOk result (λ code. length code ≡ 276) }
{
    let mut asm = Asm::new(alloc);
    put_all(&mut asm, &SETUP)?;
    put_all(&mut asm, &READ)?;
    put_all(&mut asm, &RENAME)?;
    put_all(&mut asm, &END)?;
    match asm.finish() {
        Ok(code) => Ok(code),
        Err(AsmFault::NoMemory) => Err(NoMemory),
        Err(AsmFault::Unbound { .. }) => unreachable!(),
        Err(AsmFault::Far { .. }) => unreachable!(),
    }
}

/// The guest's file, where the files' draws were made.
pub(crate) fn guest(alloc: Global, draws: Draws) -> Result<Bytes, NoMemory>
    ensures file { IfOk result (λ file. (n : ℕ) → draws.state ≡ after_directories 16 n → file ≡ guest n) }
    ensures accepted { IfOk result (λ file. first_broken file ≡ None) }
    ensures short { IfOk result (λ file. length file ≤ 2 ^ 21) }
{
    let code = guest_code(alloc)?;
    let data = guest_data(alloc, draws)?;
    let file = write(alloc, code.as_slice(), data.as_slice(), BUFFER)?;
    Ok(file)
}

//! The code of a probe while it is written.
ghost use Rattle.std.specs.Prelude.{◌≡◌, ◌+◌, ◌-◌, ◌*◌, ◌<◌, ◌≤◌, ◌^◌, [], ◌∷◌, ◌++◌, length, Some, None, All, IsSome, slice_set, IfOk, OnOk};
ghost use Rattle.std.specs.Int.{div_ceil};
ghost use Rattle.rv_asm.specs.rv_table.Encoding.{IsValid};
ghost use Rattle.rv_asm.specs.Program.{place_of};
ghost use Rattle.pr_gen.specs.Draft.{Draft, Grows, longer};

use rv_asm::below::{Bytes, Instr, NoMemory, PAGE_SIZE};
use rv_asm::{Asm, AsmFault};
use std::alloc::Global;
use std::marker::Model;

/// The size of a page, as a length.
const PAGE_LENGTH: usize = PAGE_SIZE as usize;

/// Code without conditional branches to labels: a branch stands over a jump, which reaches farther. So
/// no label is out of reach in a code of less than 2^20 bytes.
#[derive(Drop)]
pub(crate) struct Code {
    asm: Asm,
    size: usize,
}

impl Model for Code {
    ghost use Rattle.pr_gen.specs.Draft.{Draft, IsKept};

    ghost Value = { Draft };

    ghost view = { λ c. record { size = c.size; places = c.asm.places } };

    ghost invariant = { λ c. IsKept c.asm c.size };
}

impl Code {
    /// No code yet.
    pub fn new(alloc: Global) -> Code
        ensures size { result.size ≡ 0 }
        ensures places { result.places ≡ [] }
    {
        Code {
            asm: Asm::new(alloc),
            size: 0,
        }
    }

    /// A new label.
    pub fn label(&mut self) -> Result<u32, NoMemory>
        requires { length self.old.places < 2 ^ 32 - 1 }
        ensures label { IfOk result (λ label. label ≡ length self.old.places) }
        ensures places { OnOk result (self.new.places ≡ self.old.places ++ None ∷ []) }
        ensures size { OnOk result (self.new.size ≡ self.old.size) }
    {
        self.asm.label()
    }

    /// Binds a label here.
    pub fn bind(&mut self, label: u32)
        requires given { label < length self.old.places }
        requires once { place_of self.old.places label ≡ None }
        ensures { self.new ≡ record self.old { places = slice_set self.old.places label (Some self.old.size) } }
    {
        self.asm.bind(label);
    }

    /// Adds an instruction.
    pub fn put(&mut self, i: Instr) -> Result<(), NoMemory>
        requires valid { IsValid i }
        requires room { self.old.size < 2 ^ 32 }
        ensures { OnOk result (self.new ≡ longer 4 self.old) }
    {
        self.asm.put(i)?;
        self.size += 4;
        Ok(())
    }

    /// Adds a jump to a label, which leaves the address behind it in `rd`.
    pub fn jump(&mut self, rd: u8, to: u32) -> Result<(), NoMemory>
        requires rd { rd < 32 }
        requires given { to < length self.old.places }
        requires room { self.old.size < 2 ^ 32 }
        ensures { OnOk result (self.new ≡ longer 4 self.old) }
    {
        self.asm.jump(rd, to)?;
        self.size += 4;
        Ok(())
    }

    /// Adds two instructions that leave the address of a label in `rd`.
    pub fn address(&mut self, rd: u8, of: u32) -> Result<(), NoMemory>
        requires rd { rd < 32 }
        requires given { of < length self.old.places }
        requires room { self.old.size < 2 ^ 32 }
        ensures { OnOk result (self.new ≡ longer 8 self.old) }
    {
        self.asm.address(rd, of)?;
        self.size += 8;
        Ok(())
    }

    // Adds bytes, and zeros behind them up to a multiple of four.
    fn bytes(&mut self, b: &[u8]) -> Result<(), NoMemory>
        requires { self.old.size + length b.now < 2 ^ 33 }
        ensures { OnOk result (self.new ≡ longer (div_ceil (length b.now) 4 * 4) self.old) }
    {
        self.asm.bytes(b)?;
        self.size += b.len().div_ceil(4) * 4;
        Ok(())
    }

    /// Fills the last page with zeros.
    pub fn fill_page(&mut self) -> Result<(), NoMemory>
        requires { self.old.size < 2 ^ 32 }
        ensures { OnOk result (Grows 4096 self.old self.new) }
    {
        let rest = (PAGE_LENGTH - self.size % PAGE_LENGTH) % PAGE_LENGTH;
        self.bytes(&[0; PAGE_LENGTH][..rest])
    }

    /// The code, where each label is bound.
    pub fn finish(self) -> Result<Bytes, NoMemory>
        requires bound { All IsSome self.places }
        requires short { self.size < 2 ^ 20 }
        ensures { IfOk result (λ code. length code ≡ self.size) }
    {
        match self.asm.finish() {
            Ok(code) => Ok(code),
            Err(AsmFault::NoMemory) => Err(NoMemory),
            Err(AsmFault::Unbound { .. }) => unreachable!(),
            Err(AsmFault::Far { .. }) => unreachable!(),
        }
    }
}

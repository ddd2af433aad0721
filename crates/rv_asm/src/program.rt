//! A program while it is written.
ghost use Rattle.std.specs.Prelude.{◌≡◌, ◌+◌, ◌-◌, ◌<◌, ◌^◌, [], ◌∷◌, ◌++◌, length, map, Some, None, slice_set, IfOk, IfNone, IfSome, OnErr, OnOk, MatchResult};
ghost use Rattle.std.specs.List.{AllByRecursion};
ghost use Rattle.rv_table.specs.Encoding.{IsValid};
ghost use Rattle.rv_asm.specs.declared.item.Item.TheVariants.{Plain, Jump, Branch, Address, Data};
ghost use Rattle.rv_asm.specs.Program.{Program, place_of, with_item, padded, with_code, IsBranch, IsProper, total};
ghost use Rattle.rv_asm.specs.Assembly.{first_fault, code_of, IsNear};

use crate::assembly::{assemble, first_far, first_unbound};
use crate::fault::AsmFault;
use crate::item::Item;
use rv_table::Instr;
use rv_table::below::pr_base::{Bytes, NoMemory};
use std::alloc::Global;
use std::marker::Model;

/// More bytes than this have room in no memory.
const MOST_BYTES: u64 = 1 << 62;

/// How many bytes an instruction has.
const INSTRUCTION: u64 = 4;

/// A program while it is written: its items in order, and its labels. A label is a number, counted from
/// 0 on, that stands for the place where it is bound.
#[derive(Drop)]
pub struct Asm {
    alloc: Global,
    items: Vec<Item>,
    places: Vec<Option<u64>>,
    size: u64,
}

/// Instructions as items.
fn plain_items(alloc: Global, instrs: &[Instr]) -> Result<Vec<Item>, NoMemory>
    ensures { IfOk result (λ items. items.items ≡ map Plain instrs.now) }
{
    let mut items = Vec::new(alloc);
    for i in instrs {
        items.push(Item::Plain(*i))?;
    }
    Ok(items)
}

impl Model for Asm {
    ghost use Rattle.rv_asm.specs.Program.{Program, IsSound};

    ghost Value = { Program };

    ghost view = { λ a. record { items = a.items.items; places = a.places.items } };

    ghost invariant = { λ a. IsSound a.items.items a.places.items a.size };
}

impl Asm {
    /// No items and no labels.
    pub fn new(alloc: Global) -> Asm
        ensures items { result.items ≡ [] }
        ensures places { result.places ≡ [] }
    {
        Asm {
            alloc,
            items: Vec::new(alloc),
            places: Vec::new(alloc),
            size: 0,
        }
    }

    /// A label that isn't bound yet: how many there were before it.
    pub fn label(&mut self) -> Result<u32, NoMemory>
        requires { length self.old.places < 2 ^ 32 - 1 }
        ensures ok { IfOk result (λ label. (label ≡ length self.old.places)
            × (self.new ≡ record self.old { places = self.old.places ++ None ∷ [] })) }
        ensures err { OnErr result (self.new ≡ self.old) }
    {
        let label = self.places.len() as u32;
        self.places.push(None)?;
        Ok(label)
    }

    /// Binds a label here: behind the items so far. It may be bound once.
    pub fn bind(&mut self, label: u32)
        requires given { label < length self.old.places }
        requires once { place_of self.old.places label ≡ None }
        ensures { self.new ≡ record self.old {
          places = slice_set self.old.places label (Some (total self.old.items));
        } }
    {
        self.places[label as usize] = Some(self.size);
    }

    // Adds an item, where all of them have room.
    fn add(&mut self, item: Item) -> Result<(), NoMemory>
        requires { IsProper (length self.old.places) item }
        ensures ok { OnOk result (self.new ≡ with_item self.old item) }
        ensures err { OnErr result (self.new ≡ self.old) }
    {
        let size = item.size();
        if size > MOST_BYTES - self.size {
            return Err(NoMemory);
        }
        self.items.push(item)?;
        self.size += size;
        Ok(())
    }

    /// Adds an instruction.
    pub fn put(&mut self, i: Instr) -> Result<(), NoMemory>
        requires { IsValid i }
        ensures ok { OnOk result (self.new ≡ with_item self.old (Plain i)) }
        ensures err { OnErr result (self.new ≡ self.old) }
    {
        self.add(Item::Plain(i))
    }

    /// Adds instructions, one behind the other. Where memory is wanting none is added.
    pub fn put_all(&mut self, instrs: &[Instr]) -> Result<(), NoMemory>
        requires { AllByRecursion IsValid instrs.now }
        ensures ok { OnOk result (self.new ≡ with_code self.old instrs.now) }
        ensures err { OnErr result (self.new ≡ self.old) }
    {
        let count = instrs.len() as u64;
        if count > (MOST_BYTES - self.size) / INSTRUCTION {
            return Err(NoMemory);
        }
        let mut items = plain_items(self.alloc, instrs)?;
        self.items.append(&mut items)?;
        self.size += INSTRUCTION * count;
        Ok(())
    }

    /// Adds a JAL to a label, which leaves the address behind it in `rd`.
    pub fn jump(&mut self, rd: u8, to: u32) -> Result<(), NoMemory>
        requires rd { rd < 32 }
        requires given { to < length self.old.places }
        ensures ok { OnOk result (self.new ≡ with_item self.old (Jump rd to)) }
        ensures err { OnErr result (self.new ≡ self.old) }
    {
        self.add(Item::Jump { rd, to })
    }

    /// Adds a conditional branch to a label. The immediate of `i` isn't read.
    pub fn branch(&mut self, i: Instr, to: u32) -> Result<(), NoMemory>
        requires conditional { IsBranch i }
        requires given { to < length self.old.places }
        ensures ok { OnOk result (self.new ≡ with_item self.old (Branch i to)) }
        ensures err { OnErr result (self.new ≡ self.old) }
    {
        self.add(Item::Branch { instr: i, to })
    }

    /// Adds an AUIPC and an ADDI that leave the address of a label in `rd`.
    pub fn address(&mut self, rd: u8, of: u32) -> Result<(), NoMemory>
        requires rd { rd < 32 }
        requires given { of < length self.old.places }
        ensures ok { OnOk result (self.new ≡ with_item self.old (Address rd of)) }
        ensures err { OnErr result (self.new ≡ self.old) }
    {
        self.add(Item::Address { rd, of })
    }

    /// Adds bytes, and zeros behind them up to a multiple of four.
    pub fn bytes(&mut self, b: &[u8]) -> Result<(), NoMemory>
        ensures ok { OnOk result (self.new ≡ with_item self.old (Data (padded b.now))) }
        ensures err { OnErr result (self.new ≡ self.old) }
    {
        let mut data = Vec::from_slice(self.alloc, b)?;
        data.resize(b.len().div_ceil(4) * 4, 0)?;
        self.add(Item::Data(Bytes::from(data)))
    }

    /// The code: each item in order, with the distances to its labels, in little-endian words. Else the
    /// first use of a label that isn't bound; else the first use of one out of reach, which is -4,096 to
    /// 4,095 bytes for a branch, -2^20 to 2^20 - 1 for a jump and -2^31 - 2^11 to 2^31 - 2^11 - 1 for an
    /// address, counted from the first byte of the item that uses it.
    pub fn finish(self) -> Result<Bytes, AsmFault>
        ensures fault { IfSome (first_fault self) (λ fault. result ≡ Err fault) }
        ensures code { IfNone (first_fault self)
            (MatchResult result (λ code. code ≡ code_of self) (λ fault. fault ≡ AsmFault.NoMemory)) }

        ensures size { IfOk result (λ code. length code ≡ total self.items) }

        // A short program without branches, whose labels are all bound, has no fault.
        ensures near { IsNear self → first_fault self ≡ None }
    {
        if let Some(label) = first_unbound(&self.items, &self.places) {
            return Err(AsmFault::Unbound { label });
        }
        if let Some(label) = first_far(&self.items, &self.places) {
            return Err(AsmFault::Far { label });
        }
        let code = assemble(self.alloc, &self.items, &self.places)?;
        Ok(Bytes::from(code))
    }
}

//! Where the parts of a written file stand, and its bytes.
ghost use Rattle.std.specs.Prelude.{◌≡◌, ◌+◌, ◌<◌, ◌≤◌, ◌++◌, IfOk, None, OnOk, drop, length, take};
ghost use Rattle.elf_read.specs.Plans.{plan_of, planned};
ghost use Rattle.elf_read.specs.Rules.{first_broken};
ghost use Rattle.elf_write.specs.Layout.{code_segment, data_segment, data_offset, padded, program_header_bytes, segments, written};

use elf_read::Segment;
use elf_read::below::pr_base::{Bytes, NoMemory, PAGE_SIZE};
use std::alloc::Global;

/// The size of a page, as a length.
const PAGE_LENGTH: usize = PAGE_SIZE as usize;
/// Where the code begins in memory.
const CODE_ADDRESS: u64 = 0x10000;
/// `p_type` of a part to be loaded.
const PT_LOAD: u32 = 1;
/// The rights in `p_flags`.
const PF_X: u32 = 1;

const PF_W: u32 = 2;

const PF_R: u32 = 4;

/// The ELF header: an executable for RISC-V whose first instruction is the first byte of the code, with a
/// table of two program headers right behind the ELF header, and no sections.
const FILE_HEADER: [u8; 64] = [
    0x7f, 0x45, 0x4c, 0x46, 2, 1, 1, 0, 0, 0, 0, 0, 0, 0, 0, 0, // e_ident
    2, 0, 243, 0, 1, 0, 0, 0, // e_type, e_machine, e_version
    0, 0, 1, 0, 0, 0, 0, 0, // e_entry
    64, 0, 0, 0, 0, 0, 0, 0, // e_phoff
    0, 0, 0, 0, 0, 0, 0, 0, // e_shoff
    0, 0, 0, 0, 64, 0, 56, 0, 2, 0, // e_flags, e_ehsize, e_phentsize, e_phnum
    0, 0, 0, 0, 0, 0, // e_shentsize, e_shnum, e_shstrndx
];

// Adds the program header of a segment.
fn put_program_header(file: &mut Vec<u8>, segment: &Segment) -> Result<(), NoMemory>
    ensures { OnOk result (file.new.items ≡ file.old.items ++ program_header_bytes segment.now) }
{
    file.extend_from_slice(&PT_LOAD.to_le_bytes())?;
    file.extend_from_slice(&segment.flags.to_le_bytes())?;
    file.extend_from_slice(&segment.offset.to_le_bytes())?;
    file.extend_from_slice(&segment.at.to_le_bytes())?;
    file.extend_from_slice(&segment.at.to_le_bytes())?;
    file.extend_from_slice(&segment.file.to_le_bytes())?;
    file.extend_from_slice(&segment.memory.to_le_bytes())?;
    file.extend_from_slice(&PAGE_SIZE.to_le_bytes())?;
    Ok(())
}

// Adds zeros up to a size.
fn pad(file: &mut Vec<u8>, size: usize) -> Result<(), NoMemory>
    ensures { OnOk result (file.new.items ≡ padded size file.old.items) }
{
    if file.len() < size {
        file.resize(size, 0)?;
    }
    Ok(())
}

// The bytes of the file.
fn lay_out(alloc: Global, code: &[u8], init: &[u8], bss: u32) -> Result<Bytes, NoMemory>
    requires { length code.now + length init.now + bss ≤ 8388608 }
    ensures { IfOk result (λ file. file ≡ written code.now init.now bss) }
{
    let code_end = code.len().div_ceil(PAGE_LENGTH) * PAGE_LENGTH;
    let code_segment = Segment {
        at: CODE_ADDRESS,
        memory: code.len() as u64,
        offset: PAGE_SIZE,
        file: code.len() as u64,
        flags: PF_R + PF_X,
    };
    let data_segment = Segment {
        at: CODE_ADDRESS + code_end as u64,
        memory: init.len() as u64 + u64::from(bss),
        offset: (PAGE_LENGTH + code_end) as u64,
        file: init.len() as u64,
        flags: PF_R + PF_W,
    };
    let mut file = Vec::from_slice(alloc, &FILE_HEADER)?;
    put_program_header(&mut file, &code_segment)?;
    put_program_header(&mut file, &data_segment)?;
    pad(&mut file, PAGE_LENGTH)?;
    file.extend_from_slice(code)?;
    pad(&mut file, PAGE_LENGTH + code_end)?;
    file.extend_from_slice(init)?;
    Ok(Bytes::from(file))
}

/// An executable with this code, to be read and executed, at 0x10000, where it starts, and with these
/// bytes and `bss` zero bytes behind them, to be read and written, on the next free page. With neither
/// bytes nor zeros there is no second segment. No segment holds the headers.
pub fn write(alloc: Global, code: &[u8], init: &[u8], bss: u32) -> Result<Bytes, NoMemory>
    requires some_code { 0 < length code.now }
    requires within { length code.now + length init.now + bss ≤ 8388608 }
    ensures whole { IfOk result (λ file. file ≡ written code.now init.now bss) }
    ensures accepted { IfOk result (λ file. first_broken file ≡ None) }
    ensures entry { IfOk result (λ file. (plan_of file).entry ≡ 65536) }
    ensures table { IfOk result (λ file. (plan_of file).phdr ≡ 0) }
    ensures headers { IfOk result (λ file. (plan_of file).phnum ≡ 2) }
    ensures segments { IfOk result (λ file.
        planned (plan_of file) ≡ segments (length code.now) (length init.now) bss) }
    ensures code { IfOk result (λ file. take (length code.now) (drop 4096 file) ≡ code.now) }
    ensures init { IfOk result (λ file. drop (data_offset (length code.now)) file ≡ init.now) }
{
    lay_out(alloc, code, init, bss)
}

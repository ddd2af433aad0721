//! The fields of the ELF header and of a program header, under the names of the format.
ghost use Rattle.std.specs.Prelude.{◌≡◌, ◌<◌, ◌≤◌, length};
ghost use Rattle.std.specs.Option.{SomeIff};

use pr_base::{field_u16, field_u32, field_u64};

/// How many bytes a program header has.
pub(crate) const ENTRY_SIZE: usize = 56;
/// `e_type` of an executable.
pub(crate) const ET_EXEC: u16 = 2;
/// `e_type` of a shared object.
pub(crate) const ET_DYN: u16 = 3;

/// What the rules need of the ELF header. The fields are those of the format.
#[derive(Clone, Copy)]
pub struct FileHeader {
    pub e_type: u16,
    pub e_machine: u16,
    pub e_entry: u64,
    pub e_phoff: u64,
    pub e_phentsize: u16,
    pub e_phnum: u16,
}

/// What the rules need of a program header. The fields are those of the format.
#[derive(Clone, Copy, Default)]
pub struct ProgramHeader {
    pub p_type: u32,
    pub p_flags: u32,
    pub p_offset: u64,
    pub p_vaddr: u64,
    pub p_filesz: u64,
    pub p_memsz: u64,
}

impl FileHeader {
    ghost use Rattle.elf_read.specs.Headers.{file_header};
    ghost use Rattle.elf_read.specs.Rules.{displacement};

    /// The ELF header of a file, `None` where the file is shorter than one.
    pub(crate) fn read(file: &[u8]) -> Option<FileHeader>
        ensures { SomeIff result (64 ≤ length file.now) (file_header file.now) }
    {
        if file.len() < 64 {
            return None;
        }
        Some(FileHeader {
            e_type: field_u16(file, 16)?,
            e_machine: field_u16(file, 18)?,
            e_entry: field_u64(file, 24)?,
            e_phoff: field_u64(file, 32)?,
            e_phentsize: field_u16(file, 54)?,
            e_phnum: field_u16(file, 56)?,
        })
    }

    /// How far the addresses of the file are moved up: a shared object's all by the same number of pages.
    pub(crate) fn displacement(&self) -> u64
        ensures { result ≡ displacement self.now }
    {
        if self.e_type == ET_DYN {
            0x10_0000_0000
        } else {
            0
        }
    }
}

impl ProgramHeader {
    ghost use Rattle.elf_read.specs.Headers.{program_header};

    /// The program header that begins these bytes, `None` where they are fewer than it has.
    pub(crate) fn read(entry: &[u8]) -> Option<ProgramHeader>
        ensures { SomeIff result (56 ≤ length entry.now) (program_header entry.now) }
    {
        if entry.len() < ENTRY_SIZE {
            return None;
        }
        Some(ProgramHeader {
            p_type: field_u32(entry, 0)?,
            p_flags: field_u32(entry, 4)?,
            p_offset: field_u64(entry, 8)?,
            p_vaddr: field_u64(entry, 16)?,
            p_filesz: field_u64(entry, 32)?,
            p_memsz: field_u64(entry, 40)?,
        })
    }
}

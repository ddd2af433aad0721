//! Why a file isn't accepted.

/// The first rule that a file breaks. Each rule is tested over all program headers before the next one,
/// in the order of the variants. `header` is the index of the first program header that breaks the
/// rule, counted among all program headers.
#[derive(Clone, Copy)]
pub enum ElfFault {
    /// The file is shorter than an ELF header.
    Short,
    /// The file doesn't begin with the four magic bytes.
    Magic,
    /// The file isn't of 64-bit objects, little-endian data and the current version.
    Class,
    /// The file is neither an executable nor a shared object.
    Kind,
    /// The file isn't for RISC-V.
    Machine,
    /// There are program headers, and their size isn't 56, there are more than 64, or the table passes
    /// the file.
    Table,
    /// There is no segment: no program header to be loaded with a memory size other than 0.
    NoLoad,
    /// A segment has more bytes in the file than in memory, or its offset and its address differ
    /// modulo the size of a page.
    Sizes { header: u8 },
    /// A segment's bytes in the file pass the end of the file.
    Outside { header: u8 },
    /// A segment's first page lies below the end of the last page of the segment before it.
    Order { header: u8 },
    /// A segment isn't inside the addresses from 0x10000 up to 0x3F_0000_0000.
    Place { header: u8 },
    /// A program header asks for an interpreter.
    Interp { header: u8 },
}

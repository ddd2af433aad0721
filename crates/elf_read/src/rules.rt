//! The rules on program headers.
ghost use Rattle.std.specs.Prelude.{◌≡◌, ◌<◌, ◌≤◌, length, IfSome, position};
ghost use Rattle.std.specs.Result.{result_err};
ghost use Rattle.elf_read.specs.Rules.{first_broken_header, first_disorder, is_missized, is_outside, is_misplaced, is_interpreter};

use crate::fault::ElfFault;
use crate::headers::ProgramHeader;
use pr_base::PAGE_SIZE;

/// The lowest address that a segment may have.
const LOWEST_ADDRESS: u128 = 0x10000;
/// Where the addresses end that a segment may have.
const ADDRESS_LIMIT: u128 = 0x3F_0000_0000;
/// `p_type` of a part to be loaded.
const PT_LOAD: u32 = 1;
/// `p_type` of the name of an interpreter.
const PT_INTERP: u32 = 3;

impl ProgramHeader {
    ghost use Rattle.elf_read.specs.Rules.{is_segment, is_missized, is_outside, is_misplaced, is_interpreter, first_page, end_page};

    /// Whether it is a segment: to be loaded, with a memory size other than 0.
    pub(crate) fn is_segment(&self) -> bool
        ensures { result ≡ is_segment self.now }
    {
        self.p_type == PT_LOAD && self.p_memsz != 0
    }

    // Whether it is a segment whose sizes, or whose offset and address, don't fit together.
    fn is_missized(&self) -> bool
        ensures { result ≡ is_missized self.now }
    {
        self.is_segment()
            && (self.p_filesz > self.p_memsz
                || self.p_offset % PAGE_SIZE != self.p_vaddr % PAGE_SIZE)
    }

    // Whether it is a segment whose bytes in the file pass a file of `size` bytes.
    fn is_outside(&self, size: usize) -> bool
        ensures { result ≡ is_outside size self.now }
    {
        self.is_segment() && u128::from(self.p_offset) + u128::from(self.p_filesz) > size as u128
    }

    // Whether it is a segment that isn't inside the addresses that programs may have.
    fn is_misplaced(&self, moved: u64) -> bool
        ensures { result ≡ is_misplaced moved self.now }
    {
        let at = u128::from(self.p_vaddr) + u128::from(moved);
        self.is_segment() && (at < LOWEST_ADDRESS || at + u128::from(self.p_memsz) > ADDRESS_LIMIT)
    }

    fn is_interpreter(&self) -> bool
        ensures { result ≡ is_interpreter self.now }
    {
        self.p_type == PT_INTERP
    }

    // The number of the page of its first byte.
    fn first_page(&self) -> u128
        ensures { result ≡ first_page self.now }
    {
        u128::from(self.p_vaddr / PAGE_SIZE)
    }

    // The number of the page at which its last page ends.
    fn end_page(&self) -> u128
        ensures { result ≡ end_page self.now }
    {
        (u128::from(self.p_vaddr) + u128::from(self.p_memsz)).div_ceil(u128::from(PAGE_SIZE))
    }
}

// The index of the first segment whose sizes, or whose offset and address, don't fit together.
fn first_missized(headers: &[ProgramHeader]) -> Option<usize>
    ensures first { result ≡ position is_missized headers.now }
    ensures within { IfSome result (λ k. k < length headers.now) }
{
    headers.iter().position(|h| h.is_missized())
}

// The index of the first segment whose bytes in the file pass a file of `size` bytes.
fn first_outside(headers: &[ProgramHeader], size: usize) -> Option<usize>
    ensures first { result ≡ position (is_outside size) headers.now }
    ensures within { IfSome result (λ k. k < length headers.now) }
{
    headers.iter().position(|h| h.is_outside(size))
}

// The index of the first segment whose first page lies below the end of the segment before it.
fn first_out_of_order(headers: &[ProgramHeader]) -> Option<usize>
    ensures first { result ≡ first_disorder headers.now }
    ensures within { IfSome result (λ k. k < length headers.now) }
{
    let mut end = 0;
    for (k, header) in headers.iter().enumerate() {
        if header.is_segment() {
            if header.first_page() < end {
                return Some(k);
            }
            end = header.end_page();
        }
    }
    None
}

// The index of the first segment that isn't inside the addresses that programs may have.
fn first_misplaced(headers: &[ProgramHeader], moved: u64) -> Option<usize>
    ensures first { result ≡ position (is_misplaced moved) headers.now }
    ensures within { IfSome result (λ k. k < length headers.now) }
{
    headers.iter().position(|h| h.is_misplaced(moved))
}

// The index of the first program header that asks for an interpreter.
fn first_interpreter(headers: &[ProgramHeader]) -> Option<usize>
    ensures first { result ≡ position is_interpreter headers.now }
    ensures within { IfSome result (λ k. k < length headers.now) }
{
    headers.iter().position(|h| h.is_interpreter())
}

/// Tests the rules on program headers, each over all of them before the next one. The file has `size`
/// bytes, and its addresses are moved up by `moved`.
pub(crate) fn test_headers(
    headers: &[ProgramHeader],
    size: usize,
    moved: u64,
) -> Result<(), ElfFault>
    requires { length headers.now ≤ 64 }
    ensures { result_err result ≡ first_broken_header size moved headers.now }
{
    if let Some(k) = first_missized(headers) {
        return Err(ElfFault::Sizes { header: k as u8 });
    }
    if let Some(k) = first_outside(headers, size) {
        return Err(ElfFault::Outside { header: k as u8 });
    }
    if let Some(k) = first_out_of_order(headers) {
        return Err(ElfFault::Order { header: k as u8 });
    }
    if let Some(k) = first_misplaced(headers, moved) {
        return Err(ElfFault::Place { header: k as u8 });
    }
    if let Some(k) = first_interpreter(headers) {
        return Err(ElfFault::Interp { header: k as u8 });
    }
    Ok(())
}

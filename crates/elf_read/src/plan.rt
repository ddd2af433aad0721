//! What a loader needs of an accepted file.
ghost use Rattle.std.specs.Prelude.{◌≡◌, ◌+◌, ◌*◌, ◌^◌, ◌<◌, ◌≤◌, ◌++◌, All, None, drop, length, position};
ghost use Rattle.elf_read.specs.Plans.{address_in, plan_with, segments_of};
ghost use Rattle.elf_read.specs.Rules.{displacement, is_misplaced, is_missized};

use crate::headers::{ENTRY_SIZE, FileHeader, ProgramHeader};
use crate::table::MOST_HEADERS;

/// A part of the file that is loaded, and where.
#[derive(Clone, Copy, Default)]
pub struct Segment {
    /// The address of its first byte in memory, as moved.
    pub at: u64,
    /// How many bytes it has in memory. Those after the bytes of the file are zero.
    pub memory: u64,
    /// Where its bytes begin in the file.
    pub offset: u64,
    /// How many bytes it has in the file.
    pub file: u64,
    /// The rights to its bytes, as in `p_flags`: bit 0 to execute, bit 1 to write, bit 2 to read.
    pub flags: u32,
}

/// The segments of an accepted file in the order of their program headers, and what the first stack
/// tells of the file. The addresses of a shared object are moved up by 0x10_0000_0000.
#[derive(Clone, Copy)]
pub struct Plan {
    /// The address of the first instruction, as moved, modulo 2^64. No rule tests it.
    pub entry: u64,
    /// The address of the program header table, in the first segment whose bytes in the file hold it.
    /// 0 where none does.
    pub phdr: u64,
    /// How many program headers the table has.
    pub phnum: u16,
    /// How many segments there are.
    pub count: u8,
    /// The segments. Only the first `count` count, the others are all zero.
    pub segments: [Segment; 64],
}

impl Segment {
    ghost use Rattle.elf_read.specs.Plans.{holds};

    // Whether its bytes in the file hold the `size` bytes from `start` on.
    fn holds(&self, start: u64, size: u64) -> bool
        ensures { result ≡ holds start size self.now }
    {
        self.offset <= start
            && u128::from(start) + u128::from(size)
                <= u128::from(self.offset) + u128::from(self.file)
    }
}

impl ProgramHeader {
    ghost use Rattle.elf_read.specs.Plans.{segment_of};

    // The segment of this program header, in a file whose addresses are moved up by `moved`.
    fn segment(&self, moved: u64) -> Segment
        requires { self.now.p_vaddr + moved < 2 ^ 64 }
        ensures { result ≡ segment_of moved self.now }
    {
        Segment {
            at: self.p_vaddr + moved,
            memory: self.p_memsz,
            offset: self.p_offset,
            file: self.p_filesz,
            flags: self.p_flags,
        }
    }
}

// Writes the segments to the front of `segments`, and tells how many there are.
fn gather(headers: &[ProgramHeader], moved: u64, segments: &mut [Segment]) -> usize
    requires room { length headers.now ≤ length segments.old }
    requires placed { position (is_misplaced moved) headers.now ≡ None }
    ensures count { result ≡ length (segments_of moved headers.now) }
    ensures gathered { segments.new
        ≡ segments_of moved headers.now ++ drop (length (segments_of moved headers.now)) segments.old }
{
    let mut count = 0;
    for header in headers {
        if header.is_segment() {
            segments[count] = header.segment(moved);
            count += 1;
        }
    }
    count
}

// The address of the `size` bytes of the file from `start` on, by the first segment that holds them in
// the file. 0 where none does.
fn address_in(segments: &[Segment], start: u64, size: u64) -> u64
    requires { All (λ s. s.at + s.file < 2 ^ 64) segments.now }
    ensures { result ≡ address_in start size segments.now }
{
    for segment in segments {
        if segment.holds(start, size) {
            return segment.at + (start - segment.offset);
        }
    }
    0
}

impl Plan {
    /// The plan of a file with these headers, whose segments meet the rules.
    pub(crate) fn new(header: &FileHeader, headers: &[ProgramHeader]) -> Plan
        requires few { length headers.now ≤ 64 }
        requires sized { position is_missized headers.now ≡ None }
        requires placed { position (is_misplaced (displacement header.now)) headers.now ≡ None }
        ensures { result ≡ plan_with header.now (segments_of (displacement header.now) headers.now) }
    {
        let moved = header.displacement();
        let mut segments = [Segment::default(); MOST_HEADERS];
        let count = gather(headers, moved, &mut segments);
        Plan {
            entry: header.e_entry.wrapping_add(moved),
            phdr: address_in(
                &segments[..count],
                header.e_phoff,
                ENTRY_SIZE as u64 * u64::from(header.e_phnum),
            ),
            phnum: header.e_phnum,
            count: count as u8,
            segments,
        }
    }
}

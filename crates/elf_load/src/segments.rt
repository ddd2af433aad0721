//! Segments and the stack in the memory of a process.
ghost use Rattle.std.specs.Prelude.{◌≡◌, ◌+◌, ◌-◌, ◌*◌, ◌/◌, ◌%◌, ◌^◌, ◌<◌, ◌≤◌, All, Err, length, true, false, IfErr, IsTrue, OnOk};
ghost use Rattle.std.specs.Option.{SomeIff};
ghost use Rattle.elf_read.specs.Plans.{IsSound};
ghost use Rattle.rv_mem.specs.Memory.{page_count, with_pages};
ghost use Rattle.rv_mem.specs.Pages.{allows_all, has_pages, protected, written};
ghost use Rattle.elf_load.specs.Image.{break_from, end_page, exceeds_pages, rights_in, segment_pages, stack_pages, with_segment, with_segments, with_stack};

use crate::stack::{FirstStack, STACK_TOP};
use elf_read::Segment;
use rv_mem::below::pr_base::{PAGE_SIZE, bits};
use rv_mem::{MapFault, PAGES_END, Rights, Room, SPACE_PAGES, Space, StoreFault, Use};

/// Where the stack begins, and how many pages it has: 1 MiB.
const STACK_LOW: u64 = STACK_TOP - 0x10_0000;

const STACK_PAGES: u32 = 256;

/// The rights of the stack, and those of a segment's pages while its bytes are written.
const WRITABLE: Rights = Rights {
    r: true,
    w: true,
    x: false,
};

// The rights in `p_flags`.
fn rights_in(flags: u32) -> Rights
    ensures { result ≡ rights_in flags }
{
    Rights {
        r: bits::<2, 2>(flags) == 1,
        w: bits::<1, 1>(flags) == 1,
        x: bits::<0, 0>(flags) == 1,
    }
}

// The number of the page at which a segment's last page ends.
fn end_page(s: &Segment) -> u64
    requires { s.now.at + s.now.memory < 2 ^ 64 }
    ensures { result ≡ end_page s.now }
{
    (s.at + s.memory).div_ceil(PAGE_SIZE)
}

// How many pages segments have that share none. `None` where there are more than `most`.
fn pages_within(segments: &[Segment], most: u64) -> Option<u64>
    requires { All (λ s. s.at + s.memory < 2 ^ 48) segments.now }
    ensures { SomeIff result (segment_pages segments.now ≤ most) (segment_pages segments.now) }
{
    let mut left = most;
    for s in segments {
        let pages = end_page(s) - s.at / PAGE_SIZE;
        if pages > left {
            return None;
        }
        left -= pages;
    }
    Some(most - left)
}

/// Whether segments that share no page have, with the stack, more pages than a process may have, or more
/// than are left in the room.
pub(crate) fn exceed_limits(room: &Room, segments: &[Segment]) -> bool
    requires { All (λ s. s.at + s.memory < 2 ^ 48) segments.now }
    ensures { result ≡ exceeds_pages room.now (segment_pages segments.now + stack_pages) }
{
    match pages_within(segments, u64::from(SPACE_PAGES - STACK_PAGES)) {
        None => true,
        Some(pages) => pages + u64::from(STACK_PAGES) > u64::from(room.free()),
    }
}

/// The address at which the pages of the last segment end, 0 where there is none.
pub(crate) fn program_break(segments: &[Segment]) -> u64
    requires { All (λ s. s.at + s.memory < 2 ^ 48) segments.now }
    ensures { result ≡ break_from 0 segments.now }
{
    let mut end = 0;
    for s in segments {
        end = end_page(s) * PAGE_SIZE;
    }
    end
}

// Writes bytes where they may be written, so that only memory can be wanting.
fn write_there<const M: u8>(mem: &mut Space<M>, at: u64, bytes: &[u8]) -> Result<(), MapFault>
    requires { allows_all mem.old.pages at (length bytes.now) Use.Write ≡ true }
    ensures ok { OnOk result (mem.new ≡ with_pages mem.old (written mem.old.pages at bytes.now)) }
    ensures err { IfErr result (λ fault. fault ≡ MapFault.NoMemory) }
    ensures count { page_count mem.new.pages ≡ page_count mem.old.pages }
{
    match mem.write(at, bytes) {
        Ok(()) => Ok(()),
        Err(StoreFault::BadAddress) => unreachable!(),
        Err(StoreFault::NoMemory) => Err(MapFault::NoMemory),
    }
}

// Gives pages that are there other rights.
fn protect_there<const M: u8>(mem: &mut Space<M>, at: u64, pages: u32, rights: Rights)
    requires aligned { at % 4096 ≡ 0 }
    requires below { at + 4096 * pages ≤ PAGES_END }
    requires there { has_pages mem.old.pages (at / 4096) pages ≡ true }
    ensures pages { mem.new ≡ with_pages mem.old (protected mem.old.pages (at / 4096) pages rights) }
    ensures count { page_count mem.new.pages ≡ page_count mem.old.pages }
{
    if mem.protect(at, pages, rights).is_err() {
        unreachable!();
    }
}

// Maps the pages of a segment, copies its bytes of the file and gives the pages their rights. What is
// mapped is counted, whatever this answers.
fn put_segment<const M: u8>(
    mem: &mut Space<M>,
    room: &mut Room,
    file: &[u8],
    s: &Segment,
) -> Result<(), MapFault>
    requires sound { IsSound (length file.now) s.now }
    requires counted { page_count mem.old.pages ≤ room.old }
    ensures full { result ≡ Err MapFault.Full → IsTrue (exceeds_pages (room.old - page_count mem.old.pages) (page_count (with_segment file.now mem.old.pages s.now))) }
    ensures ok { OnOk result (mem.new ≡ with_pages mem.old (with_segment file.now mem.old.pages s.now)) }
    ensures room { room.new + page_count mem.old.pages ≡ room.old + page_count mem.new.pages }
{
    let first = s.at / PAGE_SIZE;
    let pages = (end_page(s) - first) as u32;
    let bytes = &file[s.offset as usize..(s.offset + s.file) as usize];
    mem.map(room, first * PAGE_SIZE, pages, WRITABLE)?;
    write_there(mem, s.at, bytes)?;
    protect_there(mem, first * PAGE_SIZE, pages, rights_in(s.flags));
    Ok(())
}

// Puts segments into memory, one after the other.
fn put_segments<const M: u8>(
    mem: &mut Space<M>,
    room: &mut Room,
    file: &[u8],
    segments: &[Segment],
) -> Result<(), MapFault>
    requires sound { All (IsSound (length file.now)) segments.now }
    requires counted { page_count mem.old.pages ≤ room.old }
    ensures full { result ≡ Err MapFault.Full → IsTrue (exceeds_pages (room.old - page_count mem.old.pages) (page_count (with_segments file.now mem.old.pages segments.now))) }
    ensures ok { OnOk result (mem.new ≡ with_pages mem.old (with_segments file.now mem.old.pages segments.now)) }
    ensures room { room.new + page_count mem.old.pages ≡ room.old + page_count mem.new.pages }
{
    for s in segments {
        put_segment(mem, room, file, s)?;
    }
    Ok(())
}

// Maps the stack and writes its bytes.
fn put_stack<const M: u8>(
    mem: &mut Space<M>,
    room: &mut Room,
    stack: &FirstStack,
) -> Result<(), MapFault>
    requires counted { page_count mem.old.pages ≤ room.old }
    requires placed { STACK_LOW ≤ stack.now.sp }
    requires fits { stack.now.sp + length stack.now.bytes ≤ STACK_TOP }
    ensures full { result ≡ Err MapFault.Full → IsTrue (exceeds_pages (room.old - page_count mem.old.pages) (page_count (with_stack mem.old.pages stack.now.sp stack.now.bytes))) }
    ensures within { OnOk result (exceeds_pages (room.old - page_count mem.old.pages) (page_count mem.new.pages) ≡ false) }
    ensures ok { OnOk result (mem.new ≡ with_pages mem.old (with_stack mem.old.pages stack.now.sp stack.now.bytes)) }
    ensures room { room.new + page_count mem.old.pages ≡ room.old + page_count mem.new.pages }
{
    mem.map(room, STACK_LOW, STACK_PAGES, WRITABLE)?;
    write_there(mem, stack.sp, stack.bytes.as_slice())
}

/// Puts all that a program starts with into memory. What is mapped is counted, whatever this answers.
pub(crate) fn put_all<const M: u8>(
    mem: &mut Space<M>,
    room: &mut Room,
    file: &[u8],
    segments: &[Segment],
    stack: &FirstStack,
) -> Result<(), MapFault>
    requires sound { All (IsSound (length file.now)) segments.now }
    requires counted { page_count mem.old.pages ≤ room.old }
    requires placed { STACK_LOW ≤ stack.now.sp }
    requires fits { stack.now.sp + length stack.now.bytes ≤ STACK_TOP }
    ensures full { result ≡ Err MapFault.Full → IsTrue (exceeds_pages (room.old - page_count mem.old.pages) (page_count (with_stack (with_segments file.now mem.old.pages segments.now) stack.now.sp stack.now.bytes))) }
    ensures within { OnOk result (exceeds_pages (room.old - page_count mem.old.pages) (page_count mem.new.pages) ≡ false) }
    ensures ok { OnOk result (mem.new ≡ with_pages mem.old (with_stack (with_segments file.now mem.old.pages segments.now) stack.now.sp stack.now.bytes)) }
    ensures room { room.new + page_count mem.old.pages ≡ room.old + page_count mem.new.pages }
{
    put_segments(mem, room, file, segments)?;
    put_stack(mem, room, stack)
}

//! Calls on the caller's pages.
ghost use Rattle.std.specs.Prelude.{◌≡◌, ◌≢◌, ◌+◌, ◌-◌, ◌<◌, ◌≤◌, ◌^◌, min, pos, IfSome};
ghost use Rattle.kr_seen.specs.rv_mem.Pages.{IsPlaced};
ghost use Rattle.kr_seen.specs.kr_model.MemoryRows.{brk_row, map_at, map_fixed, map_free, mmap_row, mprotect_row, munmap_row, page_count, rights_of};
ghost use Rattle.kr_seen.specs.kr_model.State.{process};
ghost use Rattle.kr_seen.specs.kr_model.declared.outcome.Outcome.TheVariants.{Answer, NoMemory as WantOfMemory};
ghost use Rattle.kr_seen.specs.kr_ops.Meaning.{meaning};
ghost use Rattle.kr_seen.specs.kr_ops.Sound.{IsServed, IsSoundFor};
ghost use Rattle.kr_seen.specs.PerformedRows.{Performs};

use crate::answer::{number, refused};
use kr_seen::below::{
    BadAddress, Errno, MapFault, Outcome, PAGE_SIZE, PAGES_END, Rights, Space, State, Use,
};

/// The number of the page behind the last one that a process may have.
const END_PAGE: u64 = PAGES_END / PAGE_SIZE;

/// Where maps may lie, by the numbers of their pages, and from where on those do that aren't given a place.
const LOWEST_PAGE: u64 = 0x10;

const PLACES_BEGIN: u64 = 0x200_0000;

const PLACES_END: u64 = 0x3f0_0000;

/// The bit of mmap(2) for a fixed place.
const MAP_FIXED: u64 = 0x10;

/// The bits of mmap(2) and mprotect(2) for the rights to a page.
const PROT_READ: u64 = 1;

const PROT_WRITE: u64 = 2;

const PROT_EXEC: u64 = 4;

/// What a process may do with the pages below its break.
const BREAK_RIGHTS: Rights = Rights {
    r: true,
    w: true,
    x: false,
};

/// How many pages hold `bytes` bytes.
fn page_count(bytes: u64) -> u64
    ensures { result ≡ page_count bytes }
{
    bytes.div_ceil(PAGE_SIZE)
}

/// The rights that bits stand for.
fn rights_of(prot: u64) -> Rights
    ensures { result ≡ rights_of prot }
{
    Rights {
        r: prot & PROT_READ == PROT_READ,
        w: prot & PROT_WRITE == PROT_WRITE,
        x: prot & PROT_EXEC == PROT_EXEC,
    }
}

/// An address as an answer.
fn address(at: u64) -> Outcome
    requires { at < 2 ^ 63 }
    ensures { result ≡ Answer (pos at) }
{
    Outcome::Answer(at as i64)
}

/// How many pages of a range, from its first one on, lie where a memory can have pages.
fn within<const M: u8>(mem: &Space<M>, first: u64, count: u64) -> u32
    ensures count { result ≡ min count (67108863 - first) }
    ensures placed { IsPlaced mem.now.pages }
{
    // For the proof alone: pages lie where a memory can have them.
    let _can = mem.can(0, 0, Use::Read);
    count.min(END_PAGE.saturating_sub(first)) as u32
}

/// munmap(2): those pages of the range that are there.
pub fn munmap<T: Copy, const M: u8>(state: &mut State<T, M>, pid: u32, a: u64, len: u64) -> Outcome
    requires { IsSoundFor pid state.old }
    ensures performs { Performs pid (λ k. munmap_row a len) state.old state.new result }
    ensures served { IsServed state.new }
{
    let Some(k) = state.index_of(pid) else {
        unreachable!();
    };
    let first = a / PAGE_SIZE;
    let count = within(&state.living[k].mem, first, page_count(len));
    let at = first.min(END_PAGE) * PAGE_SIZE;
    state.unmap_pages(pid, at, count);
    number(0)
}

/// mprotect(2): ENOMEM where a page isn't mapped.
pub fn mprotect<T: Copy, const M: u8>(
    state: &mut State<T, M>,
    pid: u32,
    a: u64,
    len: u64,
    prot: u64,
) -> Outcome
    requires { IsSoundFor pid state.old }
    ensures performs { Performs pid (λ k. mprotect_row k a len prot) state.old state.new result }
    ensures served { IsServed state.new }
{
    let Some(k) = state.index_of(pid) else {
        unreachable!();
    };
    let first = a / PAGE_SIZE;
    let pages = page_count(len);
    let count = within(&state.living[k].mem, first, pages);
    if u64::from(count) < pages {
        return refused(Errno::ENOMEM);
    }
    let at = first.min(END_PAGE) * PAGE_SIZE;
    match state.protect_pages(pid, at, count, rights_of(prot)) {
        Ok(()) => number(0),
        Err(BadAddress) => refused(Errno::ENOMEM),
    }
}

/// brk(2): the new end; the old one where the new one is below the start or past the last page, where a limit would be passed, and
/// where a new page is mapped.
pub fn brk<T: Copy, const M: u8>(state: &mut State<T, M>, pid: u32, a: u64) -> Outcome
    requires caller { IsSoundFor pid state.old }
    requires breaks { IfSome (process pid (meaning state.old)) (λ p. p.brk ≤ 0x3ffffff000) }
    ensures performs { Performs pid (λ k. brk_row k a) state.old state.new result }
    ensures served { result ≢ WantOfMemory → IsServed state.new }
{
    let Some(k) = state.index_of(pid) else {
        unreachable!();
    };
    let old = state.living[k].brk;
    if a < state.living[k].brk_start {
        return address(old);
    }
    if PAGES_END < a {
        return address(old);
    }
    let first = page_count(old);
    let end = page_count(a);
    if end <= first {
        state.unmap_pages(pid, end * PAGE_SIZE, (first - end) as u32);
        state.set_break(pid, a);
        return address(a);
    }
    let count = (end - first) as u32;
    if state.living[k].mem.has_any(first * PAGE_SIZE, count) {
        return address(old);
    }
    match state.map_pages(pid, first * PAGE_SIZE, count, BREAK_RIGHTS) {
        Ok(()) => {
            state.set_break(pid, a);
            address(a)
        }
        Err(MapFault::Full) => address(old),
        Err(MapFault::NoMemory) => Outcome::NoMemory,
    }
}

/// mmap(2): ENOMEM of the limits, of no place, and of a fixed one outside the places; the address.
pub fn mmap<T: Copy, const M: u8>(
    state: &mut State<T, M>,
    pid: u32,
    a: u64,
    len: u64,
    prot: u64,
    flags: u64,
) -> Outcome
    requires { IsSoundFor pid state.old }
    ensures performs { Performs pid (λ k. mmap_row k a len prot flags) state.old state.new result }
    ensures served { result ≢ WantOfMemory → IsServed state.new }
{
    let count = page_count(len);
    if flags & MAP_FIXED == MAP_FIXED {
        map_fixed(state, pid, a / PAGE_SIZE, count, prot)
    } else {
        map_free(state, pid, count, prot)
    }
}

/// Maps at the lowest place: ENOMEM where there is none, and of the limits.
fn map_free<T: Copy, const M: u8>(
    state: &mut State<T, M>,
    pid: u32,
    count: u64,
    prot: u64,
) -> Outcome
    requires { IsSoundFor pid state.old }
    ensures performs { Performs pid (λ k. map_free k count prot) state.old state.new result }
    ensures served { result ≢ WantOfMemory → IsServed state.new }
{
    let Some(k) = state.index_of(pid) else {
        unreachable!();
    };
    if PLACES_END - PLACES_BEGIN < count {
        return refused(Errno::ENOMEM);
    }
    let pages = count as u32;
    let mem = &state.living[k].mem;
    match mem.lowest_place(PLACES_BEGIN * PAGE_SIZE, PLACES_END * PAGE_SIZE, pages) {
        Some(at) => map_at(state, pid, at / PAGE_SIZE, pages, prot),
        None => refused(Errno::ENOMEM),
    }
}

/// Maps at a fixed place: ENOMEM outside the places and of the limits. Pages that are there are replaced.
fn map_fixed<T: Copy, const M: u8>(
    state: &mut State<T, M>,
    pid: u32,
    first: u64,
    count: u64,
    prot: u64,
) -> Outcome
    requires caller { IsSoundFor pid state.old }
    requires fits { first + count < 2 ^ 64 }
    ensures performs { Performs pid (λ k. map_fixed k first count prot) state.old state.new result }
    ensures served { result ≢ WantOfMemory → IsServed state.new }
{
    if first < LOWEST_PAGE {
        return refused(Errno::ENOMEM);
    }
    if PLACES_END < first + count {
        return refused(Errno::ENOMEM);
    }
    map_at(state, pid, first, count as u32, prot)
}

/// Maps at a place: ENOMEM of the limits; the address.
fn map_at<T: Copy, const M: u8>(
    state: &mut State<T, M>,
    pid: u32,
    first: u64,
    count: u32,
    prot: u64,
) -> Outcome
    requires caller { IsSoundFor pid state.old }
    requires below { first + count ≤ 0x3f00000 }
    ensures performs { Performs pid (λ k. map_at k first count prot) state.old state.new result }
    ensures served { result ≢ WantOfMemory → IsServed state.new }
{
    let at = first * PAGE_SIZE;
    match state.map_pages(pid, at, count, rights_of(prot)) {
        Ok(()) => address(at),
        Err(MapFault::Full) => refused(Errno::ENOMEM),
        Err(MapFault::NoMemory) => Outcome::NoMemory,
    }
}

//! The memory of one process.
ghost use Rattle.rv_table.specs.pr_base.Page.{page_size};
ghost use Rattle.std.specs.Prelude.{◌≡◌, ◌↔◌, ◌⊎◌, ◌+◌, ◌-◌, ◌*◌, ◌/◌, ◌%◌, ◌<◌, ◌≤◌, true, false, length, nat_eq, if◌then◌else◌, IsErr, IsOk, IsTrue, IfOk, OnOk, OnErr, IfNone, IfSome, IsErrOf};
ghost use Rattle.std.specs.FinMap as map;
ghost use Rattle.rv_table.specs.pr_base.Fields.{little_endian};
ghost use Rattle.rv_table.specs.Small.{instr_of};
ghost use Rattle.rv_table.specs.Rows.{decoded};

use crate::fault::{BadAddress, MapFault, StoreFault, TextFault};
use crate::rights::{Rights, Use};
use crate::room::Room;
use crate::table::Table;
use crate::text::TextEnd;
use rv_table::Small;
use rv_table::below::pr_base::{Bytes, PAGE_SIZE};
use std::alloc::Global;
use std::marker::Model;

/// The most pages that a process may have.
pub const SPACE_PAGES: u32 = 16_384;

/// Every page lies below this address: the end of the half of Sv39 that Linux gives a program, but for its last page.
pub const PAGES_END: u64 = 0x3F_FFFF_F000;

/// How many pages lie below that address.
pub const ALL_PAGES: u32 = (PAGES_END / PAGE_SIZE) as u32;

/// A process's memory: pages of 4,096 bytes with rights, and marks on bytes. Where `MARKED` is 0
/// it keeps no marks. A byte is read through its page's rights; an address is a byte's place among
/// all 2^64, so a range that passes the last one has a byte that isn't there.
#[derive(Drop)]
pub struct Space<const MARKED: u8> {
    pages: Table<MARKED>,
    read_marked: bool,
}

impl<const MARKED: u8> Model for Space<MARKED> {
    ghost use Rattle.std.specs.Prelude.{◌≤◌};
    ghost use Rattle.std.specs.FinMap as map;
    ghost use Rattle.rv_mem.specs.Pages.{IsOfBytes, IsPlaced, IsWhole};
    ghost use Rattle.rv_mem.specs.Memory.{Memory, memory_code};

    ghost Value = { Memory };

    ghost coded = { memory_code };

    ghost view = { λ s. record { pages = s.pages; read_marked = s.read_marked } };

    ghost invariant = { λ s. IsPlaced s.pages × (map.len s.pages ≤ 16384) × IsWhole s.pages × IsOfBytes s.pages };
}

impl<const MARKED: u8> Space<MARKED> {
    ghost use Rattle.rv_mem.specs.Pages.{allows_all, bytes_from, written, mapped, unmapped, protected, has_pages, marked, HoldsBytes, IsPlaced, IsWhole};
    ghost use Rattle.rv_mem.specs.Layout.{layout_of, has_page, HasNoPlace, IsLowestPlace};
    ghost use Rattle.rv_mem.specs.Memory.{empty_memory, with_pages, after_read, passes_limit, room_after, page_count, size_of_text, text_of, text_reach};

    /// A memory without pages. Its pages come from `alloc`.
    pub fn new(alloc: Global) -> Space<MARKED>
        ensures empty { result ≡ empty_memory }
        ensures count { page_count result.pages ≡ 0 }
    {
        Space {
            pages: Table::new(alloc),
            read_marked: false,
        }
    }

    /// How many pages there are.
    pub fn pages(&self) -> u32
        ensures count { result ≡ page_count self.now.pages }
        ensures limited { result ≤ 16384 }
    {
        self.pages.len() as u32
    }

    /// Whether a call on this memory has read a marked byte.
    pub fn mark_was_read(&self) -> bool
        ensures { result ≡ self.now.read_marked }
    {
        self.read_marked
    }

    /// Whether each of `n` bytes from an address on is mapped with the right for a use.
    pub fn can(&self, at: u64, n: u64, what: Use) -> bool
        ensures allowed { result ≡ allows_all self.now.pages at n what }

        // What holds of every memory.
        ensures placed { IsPlaced self.now.pages }
        ensures whole { IsWhole self.now.pages }
        ensures bytes { HoldsBytes self.now.pages }
    {
        self.pages.allows_all(at, n, what)
    }

    /// Reads bytes for a use, all or none of them. The range is read only if it is allowed.
    #[inline(always)]
    pub fn read(&mut self, at: u64, into: &mut [u8], what: Use) -> Result<(), BadAddress>
        ensures when { IsOk result ↔ IsTrue (allows_all self.old.pages at (length into.old) what) }
        ensures bytes { OnOk result (into.new ≡ bytes_from self.old.pages at (length into.old)) }
        ensures after { OnOk result (self.new ≡ after_read self.old at (length into.old)) }
        ensures err { OnErr result (self.new ≡ self.old) }
        ensures err_bytes { OnErr result (into.new ≡ into.old) }
    {
        match self.pages.read_allowed(at, into, what) {
            Some(marked) => {
                self.read_marked |= marked;
                Ok(())
            }
            None => Err(BadAddress),
        }
    }

    /// Fetches the word at an address that is divisible by 4: its instruction, if it is one.
    #[inline(always)]
    pub fn fetch(&mut self, at: u64) -> Result<Small, BadAddress>
        requires aligned { at % 4 ≡ 0 }
        ensures refused { IsErr result ↔ (allows_all self.old.pages at 4 Use.Execute ≡ false) }
        ensures word { IfOk result (λ found. instr_of found ≡ decoded (little_endian (bytes_from self.old.pages at 4))) }
        ensures after { OnOk result (self.new ≡ after_read self.old at 4) }
        ensures err { OnErr result (self.new ≡ self.old) }
    {
        match self.pages.fetch(at) {
            Some(fetched) => {
                self.read_marked |= fetched.marked;
                Ok(fetched.found)
            }
            None => Err(BadAddress),
        }
    }

    /// Writes bytes, all or none of them, which clears their marks.
    #[inline(always)]
    pub fn write(&mut self, at: u64, bytes: &[u8]) -> Result<(), StoreFault>
        ensures bad { IsErrOf result StoreFault.BadAddress ↔ (allows_all self.old.pages at (length bytes.now) Use.Write ≡ false) }
        ensures ok { OnOk result (self.new ≡ with_pages self.old (written self.old.pages at bytes.now)) }
        ensures err { OnErr result (self.new ≡ self.old) }
        ensures count { page_count self.new.pages ≡ page_count self.old.pages }
    {
        self.pages.write_allowed(at, bytes)?;
        Ok(())
    }

    /// How many bytes the text at an address has, up to, but without, the first zero, which is among the first
    /// `max`. It reads what `text_at` reads, and takes no memory.
    pub fn text_size(&mut self, at: u64, max: u32) -> Result<u32, TextFault>
        ensures size { result ≡ size_of_text (text_of self.old.pages at max) }
        ensures after { self.new ≡ after_read self.old at (text_reach self.old.pages at max) }
    {
        let scan = self.pages.scan(at, u64::from(max));
        self.read_marked |= scan.marked;
        match scan.end {
            TextEnd::Zero => Ok((scan.reach - 1) as u32),
            TextEnd::Unreadable => Err(TextFault::BadAddress),
            TextEnd::Limit => Err(TextFault::TooLong),
        }
    }

    /// The text at an address: the bytes before the first zero, which is among at most `max` bytes
    /// that are all readable. Whatever this answers, it has read the bytes up to and with the first
    /// zero, at most `max`, and none from the first unreadable one on.
    pub fn text_at(&mut self, at: u64, max: u32) -> Result<Bytes, TextFault>
        ensures text { (result ≡ text_of self.old.pages at max) ⊎ (result ≡ Err TextFault.NoMemory) }
        ensures after { self.new ≡ after_read self.old at (text_reach self.old.pages at max) }
    {
        let scan = self.pages.scan(at, u64::from(max));
        self.read_marked |= scan.marked;
        match scan.end {
            TextEnd::Zero => {
                let text = self.pages.bytes_at(at, (scan.reach - 1) as usize)?;
                Ok(Bytes::from(text))
            }
            TextEnd::Unreadable => Err(TextFault::BadAddress),
            TextEnd::Limit => Err(TextFault::TooLong),
        }
    }

    /// Maps fresh zero pages from an address on, in place of those that are there.
    pub fn map(
        &mut self,
        room: &mut Room,
        at: u64,
        pages: u32,
        rights: Rights,
    ) -> Result<(), MapFault>
        requires aligned { at % page_size ≡ 0 }
        requires below { at + page_size * pages ≤ PAGES_END }
        requires counted { page_count self.old.pages ≤ room.old }

        // The limits are compared with the numbers after the call.
        ensures full { IsErrOf result MapFault.Full ↔ IsTrue (passes_limit room.old self.old.pages (mapped self.old.pages (at / page_size) pages rights)) }
        ensures ok { OnOk result (self.new ≡ with_pages self.old (mapped self.old.pages (at / page_size) pages rights)) }
        ensures room { OnOk result (room.new ≡ room_after room.old self.old.pages self.new.pages) }
        ensures err { OnErr result (self.new ≡ self.old) }
        ensures err_room { OnErr result (room.new ≡ room.old) }
    {
        let first = at / PAGE_SIZE;
        let count = u64::from(pages);
        let limit = (SPACE_PAGES - self.pages()).min(room.free());
        let Some(added) = self.pages.count_absent(first, count, limit) else {
            return Err(MapFault::Full);
        };
        self.pages.map(first, count, rights)?;
        room.add(added);
        Ok(())
    }

    /// Takes those pages of a range away that are there.
    pub fn unmap(&mut self, room: &mut Room, at: u64, pages: u32)
        requires aligned { at % page_size ≡ 0 }
        requires below { at + page_size * pages ≤ PAGES_END }
        requires counted { page_count self.old.pages ≤ room.old }
        ensures pages { self.new ≡ with_pages self.old (unmapped self.old.pages (at / page_size) pages) }
        ensures room { room.new ≡ room_after room.old self.old.pages self.new.pages }
    {
        let before = self.pages();
        self.pages.unmap_placed(at / PAGE_SIZE, u64::from(pages));
        room.remove(before - self.pages());
    }

    /// Gives the pages of a range other rights, all or none of them.
    pub fn protect(&mut self, at: u64, pages: u32, rights: Rights) -> Result<(), BadAddress>
        requires aligned { at % page_size ≡ 0 }
        requires below { at + page_size * pages ≤ PAGES_END }
        ensures when { IsOk result ↔ IsTrue (has_pages self.old.pages (at / page_size) pages) }
        ensures ok { OnOk result (self.new ≡ with_pages self.old (protected self.old.pages (at / page_size) pages rights)) }
        ensures err { OnErr result (self.new ≡ self.old) }
        ensures count { page_count self.new.pages ≡ page_count self.old.pages }
    {
        let first = at / PAGE_SIZE;
        let count = u64::from(pages);
        if !self.pages.has_all(first, count) {
            return Err(BadAddress);
        }
        self.pages.protect(first, count, rights);
        Ok(())
    }

    /// Whether one of the pages of a range is mapped.
    pub fn has_any(&self, at: u64, pages: u32) -> bool
        requires aligned { at % page_size ≡ 0 }
        requires below { at + page_size * pages ≤ PAGES_END }
        ensures { result ≡ has_page (layout_of self.now.pages) (at / page_size) pages }
    {
        self.pages.has_any(at / PAGE_SIZE, u64::from(pages))
    }

    /// The lowest address from `from` on at which `pages` pages have a place: none of them is mapped, and they
    /// end by `end`.
    pub fn lowest_place(&self, from: u64, end: u64, pages: u32) -> Option<u64>
        requires aligned { (from % page_size ≡ 0) × (end % page_size ≡ 0) }
        requires ordered { from ≤ end }
        requires below { end ≤ PAGES_END }
        ensures none { IfNone result (HasNoPlace (layout_of self.now.pages) (from / page_size) (end / page_size) (end / page_size) pages) }
        ensures some { IfSome result (λ at. IsLowestPlace (layout_of self.now.pages) (from / page_size) (end / page_size) pages (at / page_size)) }
        ensures aligned { IfSome result (λ at. at % page_size ≡ 0) }
    {
        let count = u64::from(pages);
        match self
            .pages
            .lowest_place(from / PAGE_SIZE, end / PAGE_SIZE, count)
        {
            Some(place) => Some(place * PAGE_SIZE),
            None => None,
        }
    }

    /// Marks the mapped bytes from an address up to, but without, another, if marks are kept.
    pub fn mark(&mut self, from: u64, to: u64)
        requires { from ≤ to }
        ensures marks { self.new ≡ (if nat_eq MARKED 0 then self.old else with_pages self.old (marked self.old.pages from (to - from))) }
        ensures count { page_count self.new.pages ≡ page_count self.old.pages }
    {
        if MARKED != 0 {
            self.pages.mark_all(from, to);
        }
    }

    /// A copy with equal bytes, rights and marks, on which no marked byte was read yet.
    pub fn fork(&mut self, room: &mut Room) -> Result<Space<MARKED>, MapFault>
        requires counted { page_count self.old.pages ≤ room.old }
        ensures full { IsErrOf result MapFault.Full ↔ (262144 < room.old + page_count self.old.pages) }
        ensures copy { IfOk result (λ copy. copy ≡ record { pages = self.old.pages; read_marked = false }) }
        ensures same { self.new ≡ self.old }
        ensures room { OnOk result (room.new ≡ room.old + page_count self.old.pages) }
        ensures err_room { OnErr result (room.new ≡ room.old) }
    {
        let count = self.pages();
        if room.free() < count {
            return Err(MapFault::Full);
        }
        let pages = self.pages.copy()?;
        room.add(count);
        Ok(Space {
            pages,
            read_marked: false,
        })
    }
}

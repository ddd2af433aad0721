//! Bytes read and written over several pages.
ghost use Rattle.rv_table.specs.pr_base.Page.{page_size};
ghost use Rattle.std.specs.Prelude.{◌≡◌, ◌↔◌, ◌+◌, ◌%◌, ◌^◌, ◌<◌, ◌≤◌, length, false, IsTrue, IsErrOf, IfOk, OnOk, OnErr, ◌/◌, MatchOption};
ghost use Rattle.std.specs.FinMap as map;

use crate::fault::StoreFault;
use crate::page_list::MarkedPage;
use crate::rights::Use;
use crate::table::Table;
use rv_table::below::pr_base::{NoMemory, PAGE_SIZE};

impl<const MARKED: u8> Table<MARKED> {
    ghost use Rattle.rv_mem.specs.Pages.{allows_all, any_marked, bytes_from, written, replaced, HasPagesAt, IsPlaced, IsRefused, IsRead};

    /// Whether each of `count` bytes from an address on is there and allows a use. A range that
    /// passes the last address has a byte that isn't there.
    pub fn allows_all(&self, at: u64, count: u64, what: Use) -> bool
        requires placed { IsPlaced self.now }
        ensures { result ≡ allows_all self.now at count what }
    {
        let mut next = at;
        let mut left = count;
        while left > 0 {
            if !self.allows(next / PAGE_SIZE, what) {
                return false;
            }
            let here = (PAGE_SIZE - next % PAGE_SIZE).min(left);
            next += here;
            left -= here;
        }
        true
    }

    /// Copies bytes that are all there, and tells whether one of them is marked.
    pub fn read_all(&self, at: u64, into: &mut [u8]) -> bool
        requires fits { at + length into.old ≤ 2 ^ 64 }
        requires there { HasPagesAt self.now at (length into.old) }
        ensures bytes { into.new ≡ bytes_from self.now at (length into.old) }
        ensures marked { result ≡ any_marked self.now at (length into.old) }
    {
        let mut done = 0;
        let mut marked = false;
        while done < into.len() {
            let next = at + done as u64;
            let room = (PAGE_SIZE - next % PAGE_SIZE) as usize;
            let count = room.min(into.len() - done);
            let seen = self.read(next, &mut into[done..done + count]);
            marked |= seen;
            done += count;
        }
        marked
    }

    /// Writes bytes if each of them may be written, which clears their marks. Where memory is wanting none is
    /// written.
    #[inline(always)]
    pub fn write_allowed(&mut self, at: u64, bytes: &[u8]) -> Result<(), StoreFault>
        requires placed { IsPlaced self.old }
        ensures bad { IsErrOf result StoreFault.BadAddress ↔ (allows_all self.old at (length bytes.now) Use.Write ≡ false) }
        ensures ok { OnOk result (self.new ≡ written self.old at bytes.now) }
        ensures err { OnErr result (self.new ≡ self.old) }
    {
        if lie_in_a_page(at, bytes.len()) {
            self.write_in_page(at, bytes)
        } else {
            self.write_over_pages(at, bytes)
        }
    }

    /// Writes bytes that may lie in several pages, if each of them may be written, which clears their marks. All or none are written.
    #[inline(never)]
    fn write_over_pages(&mut self, at: u64, bytes: &[u8]) -> Result<(), StoreFault>
        requires placed { IsPlaced self.old }
        ensures bad { IsErrOf result StoreFault.BadAddress ↔ (allows_all self.old at (length bytes.now) Use.Write ≡ false) }
        ensures ok { OnOk result (self.new ≡ written self.old at bytes.now) }
        ensures err { OnErr result (self.new ≡ self.old) }
    {
        if !self.allows_all(at, bytes.len() as u64, Use::Write) {
            return Err(StoreFault::BadAddress);
        }
        let pages = self.plan(at, bytes)?;
        self.replace_all(at / PAGE_SIZE, pages);
        Ok(())
    }

    /// The pages that bytes are written to, as they are then. All copies are taken here, before the first
    /// page is replaced.
    fn plan(&self, at: u64, bytes: &[u8]) -> Result<Vec<MarkedPage<MARKED>>, NoMemory>
        requires fits { at + length bytes.now ≤ 2 ^ 64 }
        requires there { HasPagesAt self.now at (length bytes.now) }
        ensures pages { IfOk result (λ pages. replaced self.now (at / page_size) pages.items ≡ written self.now at bytes.now) }
        ensures count { IfOk result (λ pages. at / page_size + length pages.items < 2 ^ 64) }
    {
        let mut pages = Vec::new(self.allocator());
        let mut done = 0;
        while done < bytes.len() {
            let next = at + done as u64;
            let room = (PAGE_SIZE - next % PAGE_SIZE) as usize;
            let count = room.min(bytes.len() - done);
            let page = self.page_after(next, &bytes[done..done + count])?;
            pages.push(page)?;
            done += count;
        }
        Ok(pages)
    }

    /// Puts pages in place of those from a number on.
    fn replace_all(&mut self, first: u64, mut pages: Vec<MarkedPage<MARKED>>)
        requires { first + length pages.items < 2 ^ 64 }
        ensures { self.new ≡ replaced self.old first pages.entry.items }
    {
        while let Some(page) = pages.pop() {
            self.replace(first + pages.len() as u64, page);
        }
    }

    /// Copies bytes if each of them allows a use, and tells whether one of them is marked.
    #[inline(always)]
    pub fn read_allowed(&mut self, at: u64, into: &mut [u8], what: Use) -> Option<bool>
        requires placed { IsPlaced self.old }
        ensures read { MatchOption result (IsRefused self.old at what into.old into.new) (λ marked. IsRead self.old at what into.old into.new marked) }
        ensures same { self.new ≡ self.old }
    {
        if lie_in_a_page(at, into.len()) {
            self.read_in_page(at, into, what)
        } else {
            self.read_over_pages(at, into, what)
        }
    }

    /// Copies bytes that may lie in several pages, if each of them allows a use, and tells whether one of them is marked.
    #[inline(never)]
    fn read_over_pages(&self, at: u64, into: &mut [u8], what: Use) -> Option<bool>
        requires placed { IsPlaced self.now }
        ensures { MatchOption result (IsRefused self.now at what into.old into.new) (λ marked. IsRead self.now at what into.old into.new marked) }
    {
        if !self.allows_all(at, into.len() as u64, what) {
            return None;
        }
        let marked = self.read_all(at, into);
        Some(marked)
    }
}

/// Whether `count` isn't 0, and `count` bytes from the address `at` on lie in one page: then one look-up is enough.
#[inline(always)]
fn lie_in_a_page(at: u64, count: usize) -> bool
    ensures { IsTrue result ↔ ((0 < count) × (at % page_size + count ≤ page_size)) }
{
    count > 0 && count as u64 <= PAGE_SIZE - at % PAGE_SIZE
}

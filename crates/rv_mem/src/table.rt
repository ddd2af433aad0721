//! The pages of a memory by their numbers.
ghost use Rattle.rv_table.specs.pr_base.Page.{page_size};
ghost use Rattle.std.specs.Prelude.{◌≡◌, ◌↔◌, ℕ, ◌+◌, ◌-◌, ◌*◌, ◌/◌, ◌%◌, ◌<◌, ◌≤◌, length, IfOk, OnOk, OnErr, IsErrOf, IsTrue, IfNone, IfSome, MatchOption, Some, None, ◌≢◌, nat_eq, true, false};
ghost use Rattle.std.specs.FinMap as map;

use crate::code::{Fetched, INSTRUCTION};
use crate::fault::StoreFault;
use crate::page_list::{MarkedPage, PageList};
use crate::places::{place_of, put_behind, recalled, settle};
use crate::recent::Recent;
use crate::rights::{Rights, Use};
use rv_table::below::pr_base::{NoMemory, PAGE_SIZE};
use std::alloc::{AllocError, Global};
use std::collections::BTreeMap;
use std::marker::Model;

/// Pages by their numbers, with the allocator that fresh ones come from.
///
/// The pages and their numbers stand in lists, each with its number at one place, and an ordered map has the place
/// of each number. The places that were used last are remembered beside it; nothing has to be forgotten, since
/// such a place is right where the number at it is the one that is looked for.
#[derive(Drop)]
pub struct Table<const MARKED: u8> {
    places: BTreeMap<u64, usize>,
    numbers: Vec<u64>,
    pages: PageList<MARKED>,
    recent: Recent,
    alloc: Global,
}

impl<const MARKED: u8> Model for Table<MARKED> {
    ghost use Rattle.std.specs.FinMap as map;
    ghost use Rattle.std.specs.Prelude.{◌≡◌, length};
    ghost use Rattle.rv_mem.specs.Pages.{Pages, pages_code};
    ghost use Rattle.rv_mem.specs.Places.{places_of, pages_at, AreNumbered};

    ghost Value = { Pages };

    ghost coded = { pages_code };

    ghost view = { λ t. pages_at (places_of t.places.entries) t.pages };

    ghost invariant = { λ t. AreNumbered (places_of t.places.entries) t.numbers.items × (length t.pages ≡ length t.numbers.items) };
}

impl<const MARKED: u8> Table<MARKED> {
    ghost use Rattle.rv_mem.specs.Code.{IsFetched};
    ghost use Rattle.rv_mem.specs.Page.{fresh_page, page_with_rights};
    ghost use Rattle.rv_mem.specs.Pages.{with_page, page_allows, written, marked, bytes_from, any_marked, allows_all, byte_at, HasNoPages, HasNoZero, IsRefused, IsRead, IsWhole};

    /// No pages.
    pub fn new(alloc: Global) -> Table<MARKED>
        ensures { result ≡ map.empty }
    {
        let places = BTreeMap::new(alloc);
        let numbers = Vec::new(alloc);
        let pages = PageList::new(alloc);
        Table {
            places,
            numbers,
            pages,
            recent: Recent::new(),
            alloc,
        }
    }

    /// The allocator.
    pub fn allocator(&self) -> Global {
        self.alloc
    }

    /// How many pages there are.
    pub fn len(&self) -> usize
        ensures { result ≡ map.len self.now }
    {
        self.places.len()
    }

    /// Whether the page at a number is there.
    pub fn contains(&self, number: u64) -> bool
        ensures { result ≡ map.contains_key self.now number }
    {
        self.places.contains_key(&number)
    }

    /// Whether the page at a number is there and allows a use.
    pub fn allows(&self, number: u64, what: Use) -> bool
        ensures { result ≡ page_allows self.now number what }
    {
        match place_of(&self.places, number) {
            Some(place) => self.pages.grants(place, what),
            None => false,
        }
    }

    /// Puts a fresh page at a number. Where memory is wanting nothing changes.
    pub fn add_fresh(&mut self, number: u64, rights: Rights) -> Result<(), NoMemory>
        ensures ok { OnOk result (self.new ≡ map.insert self.old number (fresh_page rights)) }
        ensures err { OnErr result (self.new ≡ self.old) }
    {
        if self.contains(number) {
            self.reset(number, rights);
            return Ok(());
        }
        self.add(number, rights)
    }

    /// Puts a fresh page at a number that has none. Where memory is wanting nothing changes.
    fn add(&mut self, number: u64, rights: Rights) -> Result<(), NoMemory>
        requires { map.contains_key self.old number ≡ false }
        ensures ok { OnOk result (self.new ≡ map.insert self.old number (fresh_page rights)) }
        ensures err { OnErr result (self.new ≡ self.old) }
    {
        let place = self.pages.len();
        self.places.insert(number, place)?;
        match put_behind(&mut self.numbers, &mut self.pages, number, rights) {
            Ok(()) => Ok(()),
            Err(want) => {
                let _place = self.places.remove(&number);
                Err(want)
            }
        }
    }

    /// Takes the page at a number away, if there is one.
    pub fn remove(&mut self, number: u64)
        ensures { self.new ≡ map.remove self.old number }
    {
        let Some(place) = self.places.remove(&number) else {
            return;
        };
        // The last page takes the place.
        let _number = self.numbers.swap_remove(place);
        self.pages.swap_remove(place);
        settle(&mut self.places, &self.numbers, place);
    }

    /// Takes all pages away.
    pub fn clear(&mut self)
        ensures { self.new ≡ map.empty }
    {
        *self = Table::new(self.alloc);
    }

    /// Makes the page at a number, if there is one, as it is when it is mapped.
    pub fn reset(&mut self, number: u64, rights: Rights)
        ensures { self.new ≡ with_page self.old number (λ _. fresh_page rights) }
    {
        let Some(place) = place_of(&self.places, number) else {
            return;
        };
        self.pages.reset(place, rights);
    }

    /// Gives the page at a number, if there is one, other rights.
    pub fn set_rights(&mut self, number: u64, rights: Rights)
        ensures { self.new ≡ with_page self.old number (page_with_rights rights) }
    {
        let Some(place) = place_of(&self.places, number) else {
            return;
        };
        self.pages.set_rights(place, rights);
    }

    /// Puts a page in place of the one at a number, if one is there.
    pub fn replace(&mut self, number: u64, page: MarkedPage<MARKED>)
        ensures { self.new ≡ with_page self.old number (λ _. page.entry) }
    {
        let Some(place) = place_of(&self.places, number) else {
            return;
        };
        self.pages.replace(place, page);
    }

    /// Writes bytes that lie inside one page if it is there and may be written, which clears their marks.
    #[inline(always)]
    pub fn write_in_page(&mut self, at: u64, bytes: &[u8]) -> Result<(), StoreFault>
        requires some { 0 < length bytes.now }
        requires within { at % page_size + length bytes.now ≤ page_size }
        ensures bad { IsErrOf result StoreFault.BadAddress ↔ (allows_all self.old at (length bytes.now) Use.Write ≡ false) }
        ensures ok { OnOk result (self.new ≡ written self.old at bytes.now) }
        ensures err { OnErr result (self.new ≡ self.old) }
    {
        let alloc = self.alloc;
        let number = at / PAGE_SIZE;
        let remembered = self.recent.place(number, Use::Write);
        let Some(place) = recalled(&self.places, &self.numbers, remembered, number) else {
            return Err(StoreFault::BadAddress);
        };
        self.recent.note(number, Use::Write, place);
        if !self.pages.grants(place, Use::Write) {
            return Err(StoreFault::BadAddress);
        }
        let offset = (at % PAGE_SIZE) as usize;
        self.pages.write(place, alloc, offset, bytes)?;
        Ok(())
    }

    /// The page at an address, which is there, as it is after bytes inside it were written.
    pub fn page_after(&self, at: u64, bytes: &[u8]) -> Result<MarkedPage<MARKED>, NoMemory>
        requires within { at % page_size + length bytes.now ≤ page_size }
        requires there { IsTrue (map.contains_key self.now (at / page_size)) }
        ensures { IfOk result (λ p. map.get (written self.now at bytes.now) (at / page_size) ≡ Some p) }
    {
        let place = place_of(&self.places, at / PAGE_SIZE).unwrap();
        let offset = (at % PAGE_SIZE) as usize;
        self.pages.after(place, self.alloc, offset, bytes)
    }

    /// Marks the `count` bytes from an address on, which lie inside one page, if it is there.
    pub fn mark(&mut self, at: u64, count: usize)
        requires kept { MARKED ≢ 0 }
        requires within { at % page_size + count ≤ page_size }
        ensures { self.new ≡ marked self.old at count }
    {
        let Some(place) = place_of(&self.places, at / PAGE_SIZE) else {
            return;
        };
        let offset = (at % PAGE_SIZE) as usize;
        self.pages.mark(place, offset, offset + count);
    }

    /// Copies bytes that lie inside one page that is there, and tells whether one of them is marked.
    pub fn read(&self, at: u64, into: &mut [u8]) -> bool
        requires within { at % page_size + length into.old ≤ page_size }
        requires there { IsTrue (map.contains_key self.now (at / page_size)) }
        ensures bytes { into.new ≡ bytes_from self.now at (length into.old) }
        ensures marked { result ≡ any_marked self.now at (length into.old) }
    {
        let place = place_of(&self.places, at / PAGE_SIZE).unwrap();
        let offset = (at % PAGE_SIZE) as usize;
        self.pages.copy_to(place, offset, into);
        self.pages.any_marked(place, offset, into.len())
    }

    /// Copies bytes that lie inside one page if it is there and allows a use, and tells whether one of them is
    /// marked.
    #[inline(always)]
    pub fn read_in_page(&mut self, at: u64, into: &mut [u8], what: Use) -> Option<bool>
        requires some { 0 < length into.old }
        requires within { at % page_size + length into.old ≤ page_size }
        ensures read { MatchOption result (IsRefused self.old at what into.old into.new) (λ marked. IsRead self.old at what into.old into.new marked) }
        ensures same { self.new ≡ self.old }
    {
        let number = at / PAGE_SIZE;
        let remembered = self.recent.place(number, what);
        let Some(place) = recalled(&self.places, &self.numbers, remembered, number) else {
            return None;
        };
        self.recent.note(number, what, place);
        if !self.pages.grants(place, what) {
            return None;
        }
        let offset = (at % PAGE_SIZE) as usize;
        self.pages.copy_to(place, offset, into);
        let marked = self.pages.any_marked(place, offset, into.len());
        Some(marked)
    }

    /// The instruction of the word at an address if its page is there and may be executed, and whether one of its bytes is
    /// marked.
    #[inline(always)]
    pub fn fetch(&mut self, at: u64) -> Option<Fetched>
        requires aligned { at % 4 ≡ 0 }
        requires whole { IsWhole self.old }
        ensures fetched { MatchOption result (allows_all self.old at 4 Use.Execute ≡ false) (λ f. IsFetched self.old at f.found f.marked) }
        ensures same { self.new ≡ self.old }
    {
        let alloc = self.alloc;
        let number = at / PAGE_SIZE;
        let remembered = self.recent.place(number, Use::Execute);
        let Some(place) = recalled(&self.places, &self.numbers, remembered, number) else {
            return None;
        };
        self.recent.note(number, Use::Execute, place);
        if !self.pages.grants(place, Use::Execute) {
            return None;
        }
        let offset = (at % PAGE_SIZE) as usize;
        let found = self.pages.fetch(place, alloc, offset);
        let marked = self.pages.any_marked(place, offset, INSTRUCTION);
        Some(Fetched { found, marked })
    }

    /// Whether one of the `count` bytes from an address on, which lie inside one page that is there,
    /// is marked.
    pub fn any_marked(&self, at: u64, count: usize) -> bool
        requires within { at % page_size + count ≤ page_size }
        requires there { IsTrue (map.contains_key self.now (at / page_size)) }
        ensures { result ≡ any_marked self.now at count }
    {
        let place = place_of(&self.places, at / PAGE_SIZE).unwrap();
        self.pages
            .any_marked(place, (at % PAGE_SIZE) as usize, count)
    }

    /// How many of the `count` bytes from an address on, which lie inside one page that is there,
    /// stand before the first zero, if there is one.
    pub fn zero_in(&self, at: u64, count: usize) -> Option<usize>
        requires within { at % page_size + count ≤ page_size }
        requires there { IsTrue (map.contains_key self.now (at / page_size)) }
        ensures none { IfNone result (HasNoZero self.now at count) }
        ensures some { IfSome result (λ z. (z < count) × (nat_eq (byte_at self.now (at + z)) 0 ≡ true) × HasNoZero self.now at z) }
    {
        let place = place_of(&self.places, at / PAGE_SIZE).unwrap();
        self.pages.zero_in(place, (at % PAGE_SIZE) as usize, count)
    }

    /// The first number from `from` up to, but without, `to` at which there is a page.
    pub fn next(&self, from: u64, to: u64) -> Option<u64>
        requires { from ≤ to }
        ensures none { IfNone result (HasNoPages self.now from to) }
        ensures some { IfSome result (λ k. (from ≤ k) × (k < to) × HasNoPages self.now from k) }
        ensures there { IfSome result (λ k. IsTrue (map.contains_key self.now k)) }
    {
        match self.places.range(from..to).next() {
            Some((number, _place)) => Some(*number),
            None => None,
        }
    }

    /// A copy.
    pub fn copy(&self) -> Result<Table<MARKED>, NoMemory>
        ensures { IfOk result (λ table. table ≡ self.now) }
    {
        let places = self.places.clone()?;
        let numbers = self.numbers.clone()?;
        let pages = self.pages.copy()?;
        Ok(Table {
            places,
            numbers,
            pages,
            recent: self.recent,
            alloc: self.alloc,
        })
    }
}

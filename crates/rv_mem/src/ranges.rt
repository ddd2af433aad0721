//! Changes of several pages at once.
ghost use Rattle.std.specs.Prelude.{◌≡◌, ◌≢◌, ℕ, ◌+◌, ◌-◌, ◌/◌, ◌^◌, ◌<◌, ◌≤◌, true, false, nat_eq, length, IfOk, OnOk, OnErr, MatchOption, IfNone, IfSome, slice_index};
ghost use Rattle.std.specs.List.{list_any};
ghost use Rattle.std.specs.FinMap as map;

use crate::rights::Rights;
use crate::space::PAGES_END;
use crate::table::Table;
use rv_table::below::pr_base::{NoMemory, PAGE_SIZE};
use std::alloc::AllocError;

/// The number of a page is below this one.
const ALL_PAGES: u64 = PAGES_END / PAGE_SIZE;

impl<const MARKED: u8> Table<MARKED> {
    ghost use Rattle.rv_mem.specs.Layout.{layout_of, has_page, HasNoPlace, IsLowestPlace};
    ghost use Rattle.rv_mem.specs.Pages.{mapped, unmapped, protected, marked, has_pages, IsPlaced};

    /// How many of `count` pages from a number on aren't there, if they are at most `limit`.
    pub fn count_absent(&self, first: u64, count: u64, limit: u32) -> Option<u32>
        requires fits { first + count < 2 ^ 64 }
        ensures { (rights : _) → MatchOption result
            (limit + map.len self.now < map.len (mapped self.now first count rights))
            (λ n. (n + map.len self.now ≡ map.len (mapped self.now first count rights)) × (n ≤ limit)) }
    {
        let mut absent = 0;
        for k in 0..count {
            if !self.contains(first + k) {
                if absent == limit {
                    return None;
                }
                absent += 1;
            }
        }
        Some(absent)
    }

    /// The numbers of those of `count` pages from a number on that aren't there.
    fn absent(&self, first: u64, count: u64) -> Result<Vec<u64>, AllocError>
        requires fits { first + count < 2 ^ 64 }
        ensures absent { IfOk result (λ v. (q : ℕ) → list_any (nat_eq q) v.items ≡ true → (map.contains_key self.now q ≡ false) × (first ≤ q) × (q < first + count)) }
        ensures all { IfOk result (λ v. (q : ℕ) → first ≤ q → q < first + count → list_any (nat_eq q) v.items ≡ false → map.contains_key self.now q ≡ true) }
    {
        let mut absent = Vec::new(self.allocator());
        for k in 0..count {
            let number = first + k;
            if !self.contains(number) {
                absent.push(number)?;
            }
        }
        Ok(absent)
    }

    /// Takes the pages at some numbers away.
    fn remove_all(&mut self, numbers: &[u64])
        ensures gone { (q : ℕ) → list_any (nat_eq q) numbers.now ≡ true → map.contains_key self.new q ≡ false }
        ensures others { (q : ℕ) → list_any (nat_eq q) numbers.now ≡ false → map.get self.new q ≡ map.get self.old q }
    {
        for number in numbers {
            self.remove(*number);
        }
    }

    /// Puts fresh pages at numbers that have none, at all of them or at none.
    fn add_all(&mut self, numbers: &[u64], rights: Rights) -> Result<(), NoMemory>
        requires { (q : ℕ) → list_any (nat_eq q) numbers.now ≡ true → map.contains_key self.old q ≡ false }
        ensures added { OnOk result ((q : ℕ) → list_any (nat_eq q) numbers.now ≡ true → map.contains_key self.new q ≡ true) }
        ensures others { OnOk result ((q : ℕ) → list_any (nat_eq q) numbers.now ≡ false → map.get self.new q ≡ map.get self.old q) }
        ensures err { OnErr result (self.new ≡ self.old) }
    {
        for number in numbers {
            if let Err(want) = self.add_fresh(*number, rights) {
                self.remove_all(numbers);
                return Err(want);
            }
        }
        Ok(())
    }

    /// Maps `count` fresh pages from a number on, all or none.
    pub fn map(&mut self, first: u64, count: u64, rights: Rights) -> Result<(), NoMemory>
        requires fits { first + count < 2 ^ 64 }
        ensures ok { OnOk result (self.new ≡ mapped self.old first count rights) }
        ensures err { OnErr result (self.new ≡ self.old) }
    {
        let absent = self.absent(first, count)?;
        self.add_all(&absent, rights)?;
        for k in 0..count {
            self.reset(first + k, rights);
        }
        Ok(())
    }

    /// Takes those of `count` pages from a number on away that are there.
    pub fn unmap(&mut self, first: u64, count: u64)
        requires fits { first + count < 2 ^ 64 }
        ensures { self.new ≡ unmapped self.old first count }
    {
        let last = first + count;
        let mut from = first;
        while let Some(number) = self.next(from, last) {
            self.remove(number);
            from = number + 1;
        }
    }

    /// Unmaps `count` pages from a number on, where all pages lie below the end of a memory. Where the range has them all, none is looked for.
    pub fn unmap_placed(&mut self, first: u64, count: u64)
        requires placed { IsPlaced self.old }
        requires fits { first + count < 2 ^ 64 }
        ensures { self.new ≡ unmapped self.old first count }
    {
        if first == 0 && count >= ALL_PAGES {
            self.clear();
        } else {
            self.unmap(first, count);
        }
    }

    /// Whether each of `count` pages from a number on is there.
    pub fn has_all(&self, first: u64, count: u64) -> bool
        requires fits { first + count < 2 ^ 64 }
        ensures { result ≡ has_pages self.now first count }
    {
        for k in 0..count {
            if !self.contains(first + k) {
                return false;
            }
        }
        true
    }

    /// Gives those of `count` pages from a number on other rights that are there.
    pub fn protect(&mut self, first: u64, count: u64, rights: Rights)
        requires fits { first + count < 2 ^ 64 }
        ensures { self.new ≡ protected self.old first count rights }
    {
        for k in 0..count {
            self.set_rights(first + k, rights);
        }
    }

    /// Whether one of `count` pages from a number on is there.
    pub fn has_any(&self, first: u64, count: u64) -> bool
        requires fits { first + count < 2 ^ 64 }
        ensures { result ≡ has_page (layout_of self.now) first count }
    {
        self.next(first, first + count).is_some()
    }

    /// The lowest number from `from` on at which `count` pages have a place that ends by `end`.
    pub fn lowest_place(&self, from: u64, end: u64, count: u64) -> Option<u64>
        requires ordered { from ≤ end }
        requires fits { end + count < 2 ^ 64 }
        ensures none { IfNone result (HasNoPlace (layout_of self.now) from end end count) }
        ensures some { IfSome result (IsLowestPlace (layout_of self.now) from end count) }
    {
        let mut place = from;
        while place + count <= end {
            let Some(number) = self.next(place, place + count) else {
                return Some(place);
            };
            place = number + 1;
        }
        None
    }

    /// Marks the bytes from an address up to, but without, another that are there.
    pub fn mark_all(&mut self, from: u64, to: u64)
        requires kept { MARKED ≢ 0 }
        requires ordered { from ≤ to }
        ensures { self.new ≡ marked self.old from (to - from) }
    {
        let mut next = from;
        while next < to {
            let Some(number) = self.next(next / PAGE_SIZE, (to - 1) / PAGE_SIZE + 1) else {
                return;
            };
            let here = next.max(number * PAGE_SIZE);
            let count = (PAGE_SIZE - here % PAGE_SIZE).min(to - here);
            self.mark(here, count as usize);
            next = here + count;
        }
    }
}

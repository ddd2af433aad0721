//! The pages of a memory by their places in a list.
ghost use Rattle.rv_table.specs.pr_base.Page.{page_size};
ghost use Rattle.std.specs.Prelude.{◌≡◌, ◌≢◌, ◌+◌, ◌-◌, ◌%◌, ◌<◌, ◌≤◌, ◌++◌, [], ◌∷◌, ℕ, length, take, drop, slice_set, IfOk, OnOk, OnErr, nat_eq, position};
ghost use Rattle.std.specs.List.{list_any};
ghost use Rattle.rv_table.specs.Small.{instr_of};
ghost use Rattle.rv_table.specs.Rows.{decoded};
ghost use Rattle.rv_mem.specs.Code.{word_at};
ghost use Rattle.rv_mem.specs.Places.{page_at};

use crate::mark_list;
use crate::marks::Marks;
use crate::page::Page;
use crate::rights::{Rights, Use};
use rv_table::Small;
use rv_table::below::pr_base::NoMemory;
use std::alloc::Global;
use std::marker::Model;

/// A page with its marks, apart from the list.
#[derive(Drop)]
pub struct MarkedPage<const MARKED: u8> {
    page: Page,
    marks: Marks,
}

impl<const MARKED: u8> Model for MarkedPage<MARKED> {
    ghost use Rattle.rv_mem.specs.Marks.{kept_marks};
    ghost use Rattle.rv_mem.specs.Page.{PageState, page_code};
    ghost use Rattle.rv_mem.specs.PageList.{with_marks};

    ghost Value = { PageState };

    ghost coded = { page_code };

    ghost view = { λ p. with_marks p.page (kept_marks MARKED p.marks) };
}

/// The most pages of a process of which it is remembered what was decoded. Each takes 8 KiB.
const CODED_PAGES: u32 = 256;

/// Pages in a list. Their marks stand in a list of their own, so that a copy of pages without marks writes nothing for them.
/// Where `MARKED` is 0 no marks are kept.
#[derive(Drop)]
pub struct PageList<const MARKED: u8> {
    pages: Vec<Page>,
    marks: Vec<Marks>,
    // How many of the pages have room for what is decoded.
    coded: u32,
}

impl<const MARKED: u8> Model for PageList<MARKED> {
    ghost use Rattle.std.specs.Coded.{coded_list};
    ghost use Rattle.std.specs.Prelude.{◌≢◌, ◌≤◌, List, length};
    ghost use Rattle.std.specs.Vec.{vec_capacity};
    ghost use Rattle.rv_mem.specs.Page.{PageState, page_code};
    ghost use Rattle.rv_mem.specs.PageList.{pages_of};

    ghost Value = { List PageState };

    ghost coded = { coded_list page_code };

    ghost view = { λ l. pages_of MARKED l.pages.items l.marks.items };

    ghost invariant = { λ l. (length l.marks.items ≤ length l.pages.items) × (MARKED ≢ 0 → length l.pages.items ≤ vec_capacity l.marks) };
}

impl<const MARKED: u8> PageList<MARKED> {
    ghost use Rattle.rv_mem.specs.Page.{fresh_page, grants, page_marked, page_with_rights, page_written};

    /// No pages.
    pub fn new(alloc: Global) -> PageList<MARKED>
        ensures { result ≡ [] }
    {
        let pages = Vec::new(alloc);
        let marks = Vec::new(alloc);
        PageList {
            pages,
            marks,
            coded: 0,
        }
    }

    /// How many pages there are.
    pub fn len(&self) -> usize
        ensures { result ≡ length self.now }
    {
        self.pages.len()
    }

    /// Puts a fresh page behind the others. Where memory is wanting nothing changes.
    pub fn push_fresh(&mut self, rights: Rights) -> Result<(), NoMemory>
        ensures ok { OnOk result (self.new ≡ self.old ++ fresh_page rights ∷ []) }
        ensures err { OnErr result (self.new ≡ self.old) }
    {
        mark_list::make_room::<MARKED>(&mut self.marks, self.pages.len() + 1)?;
        let alloc = *self.pages.allocator();
        self.pages.push(Page::fresh(alloc, rights))?;
        Ok(())
    }

    /// Takes the page at a place away. The last page takes the place.
    pub fn swap_remove(&mut self, place: usize)
        requires { place < length self.old }
        ensures size { length self.new + 1 ≡ length self.old }
        ensures same { (j : ℕ) → j ≢ place → j < length self.new → page_at self.new j ≡ page_at self.old j }
        ensures moved { place < length self.new → page_at self.new place ≡ page_at self.old (length self.new) }
    {
        uncount(&mut self.coded, &self.pages[place]);
        let last = self.pages.len() - 1;
        let _page = self.pages.swap_remove(place);
        mark_list::remove::<MARKED>(&mut self.marks, place, last);
    }

    /// Makes the page at a place as it is when it is mapped, with these rights.
    pub fn reset(&mut self, place: usize, rights: Rights)
        requires { place < length self.old }
        ensures { self.new ≡ slice_set self.old place (fresh_page rights) }
    {
        uncount(&mut self.coded, &self.pages[place]);
        let alloc = *self.pages.allocator();
        self.pages[place] = Page::fresh(alloc, rights);
        mark_list::put::<MARKED>(&mut self.marks, place, Marks::none());
    }

    /// Whether the rights of the page at a place allow the use.
    #[inline(always)]
    pub fn grants(&self, place: usize, what: Use) -> bool
        requires { place < length self.now }
        ensures { result ≡ grants (page_at self.now place).rights what }
    {
        self.pages[place].grants(what)
    }

    /// Gives the page at a place other rights.
    pub fn set_rights(&mut self, place: usize, rights: Rights)
        requires { place < length self.old }
        ensures { self.new ≡ slice_set self.old place (page_with_rights rights (page_at self.old place)) }
    {
        self.pages[place].set_rights(rights);
    }

    /// Puts a page in place of the one at a place.
    pub fn replace(&mut self, place: usize, page: MarkedPage<MARKED>)
        requires { place < length self.old }
        ensures { self.new ≡ slice_set self.old place page.entry }
    {
        uncount(&mut self.coded, &self.pages[place]);
        self.pages[place] = page.page;
        mark_list::put::<MARKED>(&mut self.marks, place, page.marks);
    }

    /// Writes bytes from an offset on into the page at a place, in a copy where they are shared, which clears their marks.
    #[inline(always)]
    pub fn write(
        &mut self,
        place: usize,
        alloc: Global,
        offset: usize,
        bytes: &[u8],
    ) -> Result<(), NoMemory>
        requires there { place < length self.old }
        requires within { offset + length bytes.now ≤ page_size }
        ensures ok { OnOk result (self.new ≡ slice_set self.old place (page_written offset bytes.now (page_at self.old place))) }
        ensures err { OnErr result (self.new ≡ self.old) }
    {
        self.pages[place].write(alloc, offset, bytes)?;
        mark_list::clear::<MARKED>(&mut self.marks, place, offset, offset + bytes.len());
        Ok(())
    }

    /// The page at a place as it is after a write.
    pub fn after(
        &self,
        place: usize,
        alloc: Global,
        offset: usize,
        bytes: &[u8],
    ) -> Result<MarkedPage<MARKED>, NoMemory>
        requires there { place < length self.now }
        requires within { offset + length bytes.now ≤ page_size }
        ensures { IfOk result (λ p. p ≡ page_written offset bytes.now (page_at self.now place)) }
    {
        let mut page = self.pages[place].clone()?;
        page.write(alloc, offset, bytes)?;
        let mut marks = mark_list::marks_at(&self.marks, place);
        marks.clear(offset, offset + bytes.len());
        Ok(MarkedPage { page, marks })
    }

    /// Marks the bytes from an offset up to, but without, another in the page at a place.
    pub fn mark(&mut self, place: usize, from: usize, to: usize)
        requires kept { MARKED ≢ 0 }
        requires there { place < length self.old }
        requires ordered { from ≤ to }
        requires within { to ≤ page_size }
        ensures { self.new ≡ slice_set self.old place (page_marked from (to - from) (page_at self.old place)) }
    {
        mark_list::mark::<MARKED>(&mut self.marks, place, from, to);
    }

    /// Copies the bytes from an offset on of the page at a place.
    #[inline(always)]
    pub fn copy_to(&self, place: usize, offset: usize, into: &mut [u8])
        requires there { place < length self.now }
        requires within { offset + length into.old ≤ page_size }
        ensures bytes { into.new ≡ take (length into.old) (drop offset (page_at self.now place).bytes) }
        ensures full { length (page_at self.now place).bytes ≡ page_size }
    {
        self.pages[place].copy_to(offset, into);
    }

    /// Whether one of the `count` bytes from an offset on is marked in the page at a place.
    #[inline(always)]
    pub fn any_marked(&self, place: usize, offset: usize, count: usize) -> bool
        requires there { place < length self.now }
        requires within { offset + count ≤ page_size }
        ensures { result ≡ list_any (λ m. m) (take count (drop offset (page_at self.now place).marks)) }
    {
        mark_list::any::<MARKED>(&self.marks, place, offset, count)
    }

    /// How many of the `count` bytes from an offset on in the page at a place stand before the first zero, if there is one.
    pub fn zero_in(&self, place: usize, offset: usize, count: usize) -> Option<usize>
        requires there { place < length self.now }
        requires within { offset + count ≤ page_size }
        ensures found { result ≡ position (λ b. nat_eq b 0) (take count (drop offset (page_at self.now place).bytes)) }
        ensures full { length (page_at self.now place).bytes ≡ page_size }
    {
        self.pages[place].zero_in(offset, count)
    }

    /// A copy.
    pub fn copy(&self) -> Result<PageList<MARKED>, NoMemory>
        ensures { IfOk result (λ copy. copy ≡ self.now) }
    {
        let pages = self.pages.clone()?;
        let marks = mark_list::copy::<MARKED>(&self.marks, pages.len())?;
        Ok(PageList {
            pages,
            marks,
            coded: 0,
        })
    }

    /// The instruction of the word at an offset in the page at a place, if it is one.
    #[inline(always)]
    pub fn fetch(&mut self, place: usize, alloc: Global, offset: usize) -> Small
        requires there { place < length self.old }
        requires aligned { offset % 4 ≡ 0 }
        requires within { offset + 4 ≤ page_size }
        ensures value { instr_of result ≡ decoded (word_at (page_at self.old place).bytes offset) }
        ensures same { self.new ≡ self.old }
    {
        let found = self.pages[place].recalled(offset);
        if found.is_instr() {
            return found;
        }
        self.fetch_anew(place, alloc, offset)
    }

    /// The instruction of the word at an offset in the page at a place, which isn't remembered yet: it is decoded, and remembered from now on.
    #[inline(never)]
    fn fetch_anew(&mut self, place: usize, alloc: Global, offset: usize) -> Small
        requires there { place < length self.old }
        requires aligned { offset % 4 ≡ 0 }
        requires within { offset + 4 ≤ page_size }
        ensures value { instr_of result ≡ decoded (word_at (page_at self.old place).bytes offset) }
        ensures same { self.new ≡ self.old }
    {
        let page = &mut self.pages[place];
        make_room(&mut self.coded, page, alloc);
        page.decode(offset)
    }
}

/// Makes room for what is decoded of a page, if few enough pages have it and there is memory for it, and counts the page.
fn make_room(coded: &mut u32, page: &mut Page, alloc: Global)
    ensures { page.new ≡ page.old }
{
    if *coded >= CODED_PAGES || page.is_coded() {
        return;
    }
    page.make_room(alloc);
    if page.is_coded() {
        *coded += 1;
    }
}

/// Counts a page no longer, which goes with what was decoded of it.
fn uncount(coded: &mut u32, page: &Page) {
    if page.is_coded() {
        *coded = coded.saturating_sub(1);
    }
}

//! The marks of the pages of a memory, by the places of the pages.
//!
//! The first of the pages have marks that are stored; the others have none. The room for those of all pages is kept, so that
//! marking takes no memory, but what isn't used of it is never touched.
ghost use Rattle.rv_table.specs.pr_base.Page.{page_size};
ghost use Rattle.std.specs.Prelude.{◌≡◌, ◌≢◌, ◌+◌, ◌-◌, ◌<◌, ◌≤◌, ℕ, take, drop, replicate, length, max, IfOk, OnOk, true, false};
ghost use Rattle.std.specs.List.{list_any};
ghost use Rattle.std.specs.Vec.{vec_capacity};
ghost use Rattle.std.proofs.Math.Seq.{sets};
ghost use Rattle.rv_mem.specs.Marks.{kept_marks, marks_at, IsChangedAt};

use crate::marks::Marks;
use std::alloc::AllocError;

/// Makes room for the marks of so many pages, if marks are kept.
pub fn make_room<const MARKED: u8>(all: &mut Vec<Marks>, pages: usize) -> Result<(), AllocError>
    requires { length all.old.items ≤ pages }
    ensures same { all.new.items ≡ all.old.items }
    ensures room { OnOk result (MARKED ≢ 0 → pages ≤ vec_capacity all.new) }
    ensures capacity { vec_capacity all.old ≤ vec_capacity all.new }
{
    if MARKED == 0 {
        return Ok(());
    }
    let more = pages - all.len();
    all.reserve(more)
}

/// A copy, with room for the marks of so many pages, if marks are kept.
pub fn copy<const MARKED: u8>(all: &Vec<Marks>, pages: usize) -> Result<Vec<Marks>, AllocError>
    requires { length all.now.items ≤ pages }
    ensures same { IfOk result (λ copy. copy.items ≡ all.now.items) }
    ensures room { IfOk result (λ copy. MARKED ≢ 0 → pages ≤ vec_capacity copy) }
{
    let mut copy = Vec::new(*all.allocator());
    make_room::<MARKED>(&mut copy, pages)?;
    copy.extend_from_slice(all)?;
    Ok(copy)
}

/// The marks of the page at a place.
pub fn marks_at(all: &[Marks], place: usize) -> Marks
    ensures { (marked : ℕ) → kept_marks marked result ≡ marks_at marked all.now place }
{
    if place < all.len() {
        all[place]
    } else {
        Marks::none()
    }
}

/// Whether one of the `count` bytes from an offset on is marked in the page at a place.
#[inline(always)]
pub fn any<const MARKED: u8>(all: &[Marks], place: usize, offset: usize, count: usize) -> bool
    requires { offset + count ≤ page_size }
    ensures { result ≡ list_any (λ m. m) (take count (drop offset (marks_at MARKED all.now place))) }
{
    if MARKED == 0 {
        return false;
    }
    if place < all.len() {
        all[place].any(offset, count)
    } else {
        false
    }
}

/// Takes the marks of bytes in the page at a place away.
#[inline(always)]
pub fn clear<const MARKED: u8>(all: &mut Vec<Marks>, place: usize, from: usize, to: usize)
    requires ordered { from ≤ to }
    requires within { to ≤ page_size }
    ensures changed { IsChangedAt MARKED all.old.items all.new.items place (sets (marks_at MARKED all.old.items place) from (replicate (to - from) false)) }
    ensures len { length all.new.items ≡ length all.old.items }
    ensures capacity { vec_capacity all.new ≡ vec_capacity all.old }
{
    if MARKED != 0 && place < all.len() {
        all[place].clear(from, to);
    }
}

/// Marks bytes in the page at a place.
pub fn mark<const MARKED: u8>(all: &mut Vec<Marks>, place: usize, from: usize, to: usize)
    requires kept { MARKED ≢ 0 }
    requires room { place < vec_capacity all.old }
    requires ordered { from ≤ to }
    requires within { to ≤ page_size }
    ensures changed { IsChangedAt MARKED all.old.items all.new.items place (sets (marks_at MARKED all.old.items place) from (replicate (to - from) true)) }
    ensures len { length all.new.items ≤ max (length all.old.items) (place + 1) }
    ensures capacity { vec_capacity all.new ≡ vec_capacity all.old }
{
    reach(all, place);
    all[place].set(from, to);
}

/// Puts marks in place of those of the page at a place.
pub fn put<const MARKED: u8>(all: &mut Vec<Marks>, place: usize, marks: Marks)
    requires room { MARKED ≢ 0 → place < vec_capacity all.old }
    ensures changed { IsChangedAt MARKED all.old.items all.new.items place (kept_marks MARKED marks) }
    ensures len { length all.new.items ≤ max (length all.old.items) (place + 1) }
    ensures capacity { vec_capacity all.new ≡ vec_capacity all.old }
{
    if MARKED == 0 {
        return;
    }
    if place < all.len() {
        all[place] = marks;
    } else if marks.has_some() {
        reach(all, place);
        all[place] = marks;
    }
}

/// Takes the marks of the page at a place away; the last page takes the place.
pub fn remove<const MARKED: u8>(all: &mut Vec<Marks>, place: usize, last: usize)
    requires within { place ≤ last }
    requires few { length all.old.items ≤ last + 1 }
    ensures moved { place < last → marks_at MARKED all.new.items place ≡ marks_at MARKED all.old.items last }
    ensures others { (i : ℕ) → i ≢ place → i < last → marks_at MARKED all.new.items i ≡ marks_at MARKED all.old.items i }
    ensures len { length all.new.items ≤ last }
    ensures capacity { vec_capacity all.new ≡ vec_capacity all.old }
{
    if last < all.len() {
        let _marks = all.swap_remove(place);
    } else if place < all.len() {
        all[place].clear_all();
    }
}

/// Stores marks for all pages up to a place, without a mark where none were stored.
fn reach(all: &mut Vec<Marks>, place: usize)
    requires { place < vec_capacity all.old }
    ensures same { (marked i : ℕ) → marks_at marked all.new.items i ≡ marks_at marked all.old.items i }
    ensures there { place < length all.new.items }
    ensures len { length all.new.items ≤ max (length all.old.items) (place + 1) }
    ensures capacity { vec_capacity all.new ≡ vec_capacity all.old }
{
    while all.len() <= place {
        all.push_reserved(Marks::none());
    }
}

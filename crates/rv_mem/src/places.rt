//! Where in a list the page at a number is.
ghost use Rattle.std.specs.Prelude.{◌≡◌, ◌++◌, [], ◌∷◌, ◌<◌, length, slice_index, Some, IsSome, OnOk, OnErr};
ghost use Rattle.std.specs.FinMap as map;
ghost use Rattle.rv_mem.specs.Page.{fresh_page};
ghost use Rattle.rv_mem.specs.Places.{places_of, AreNumbered, IsSettled};

use crate::page_list::PageList;
use crate::rights::Rights;
use rv_table::below::pr_base::NoMemory;
use std::collections::BTreeMap;

/// The place of the page at a number, if it is there.
#[inline(never)]
pub fn place_of(places: &BTreeMap<u64, usize>, number: u64) -> Option<usize>
    ensures { result ≡ map.get (places_of places.now.entries) number }
{
    match places.get(&number) {
        Some(place) => Some(*place),
        None => None,
    }
}

/// The place of the page at a number, if it is there. A place that is remembered is tried first: it is right where the page at it has the
/// number.
#[inline(always)]
pub fn recalled(
    places: &BTreeMap<u64, usize>,
    numbers: &[u64],
    remembered: usize,
    number: u64,
) -> Option<usize>
    requires { AreNumbered (places_of places.now.entries) numbers.now }
    ensures { result ≡ map.get (places_of places.now.entries) number }
{
    if remembered < numbers.len() && numbers[remembered] == number {
        return Some(remembered);
    }
    place_of(places, number)
}

/// Notes where the page is that has taken a place, if one has.
pub fn settle(places: &mut BTreeMap<u64, usize>, numbers: &[u64], place: usize)
    requires { place < length numbers.now → IsSome (map.get (places_of places.old.entries) (slice_index numbers.now place)) }
    ensures { IsSettled (places_of places.old.entries) (places_of places.new.entries) numbers.now place }
{
    if place >= numbers.len() {
        return;
    }
    *places.get_mut(&numbers[place]).unwrap() = place;
}

/// Puts a fresh page with its number behind the others. Where memory is wanting nothing changes.
pub fn put_behind<const MARKED: u8>(
    numbers: &mut Vec<u64>,
    pages: &mut PageList<MARKED>,
    number: u64,
    rights: Rights,
) -> Result<(), NoMemory>
    ensures numbers { OnOk result (numbers.new.items ≡ numbers.old.items ++ number ∷ []) }
    ensures pages { OnOk result (pages.new ≡ pages.old ++ fresh_page rights ∷ []) }
    ensures err_numbers { OnErr result (numbers.new.items ≡ numbers.old.items) }
    ensures err_pages { OnErr result (pages.new ≡ pages.old) }
{
    numbers.push(number)?;
    if let Err(want) = pages.push_fresh(rights) {
        let _number = numbers.pop();
        return Err(want);
    }
    Ok(())
}

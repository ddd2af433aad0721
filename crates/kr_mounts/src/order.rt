//! Which bindings count, and in what order.
ghost use Rattle.std.specs.Prelude.{◌≡◌, length, map, if◌then◌else◌, IfOk, OnOk};
ghost use Rattle.std.specs.List.{All};
ghost use Rattle.std.specs.BTreeMap.{insert_entry, values};
ghost use Rattle.pt_bind.specs.Binding.{IsWritten, names_of};
ghost use Rattle.kr_mounts.specs.Found.{HasTexts, located_told};
ghost use Rattle.kr_mounts.specs.MountTable.{counting, in_order};
ghost use Rattle.kr_mounts.specs.Turns.{IsNoted, turn_cmp};

use crate::source::Found;
use pt_bind::below::pr_base::{Bytes, NoMemory, components};
use std::alloc::Global;
use std::collections::BTreeMap;

/// A binding with its source and location.
#[derive(Drop)]
pub(crate) struct Located {
    pub(crate) index: u32,
    pub(crate) keep: bool,
    pub(crate) source: Found,
    pub(crate) location: Bytes,
}

/// When a binding has its turn: by the number of its location's names, and where that is the same by its own.
#[derive(Clone, Copy, PartialEq, Eq, PartialOrd, Ord)]
struct Turn {
    names: usize,
    number: usize,
}

/// The bindings that count, by the number of names in their locations, ties in option order. Of equal locations the
/// last one counts.
pub(crate) fn in_order(alloc: Global, located: Vec<Located>) -> Result<Vec<Located>, NoMemory>
    requires { All HasTexts located.items }
    ensures order { IfOk result (λ ordered. map located_told ordered.items ≡ in_order (counting (map located_told located.items))) }
    ensures texts { IfOk result (λ ordered. All HasTexts ordered.items) }
{
    let mut left = located;
    let mut seen: BTreeMap<Vec<u8>, usize> = BTreeMap::new(alloc);
    let mut turns: BTreeMap<Turn, Located> = BTreeMap::new(alloc);
    while let Some(one) = left.pop() {
        let names = count(one.location.as_slice());
        let number = left.len();
        let is_new = note(alloc, &mut seen, one.location.as_slice(), number)?;
        take_turn(&mut turns, Turn { names, number }, one, is_new)?;
    }
    in_turn(alloc, turns)
}

/// Gives a binding its turn, unless another one counts in its place.
fn take_turn(
    turns: &mut BTreeMap<Turn, Located>,
    turn: Turn,
    one: Located,
    is_new: bool,
) -> Result<(), NoMemory>
    ensures { OnOk result (turns.new.entries ≡ (if is_new then insert_entry turn_cmp turns.old.entries turn one else turns.old.entries)) }
{
    if !is_new {
        return Ok(());
    }
    turns.insert(turn, one)?;
    Ok(())
}

/// The bindings in their turns.
fn in_turn(alloc: Global, turns: BTreeMap<Turn, Located>) -> Result<Vec<Located>, NoMemory>
    ensures { IfOk result (λ ordered. ordered.items ≡ values turns) }
{
    let mut ordered = Vec::new(alloc);
    for one in turns.into_values() {
        ordered.push(one)?;
    }
    Ok(ordered)
}

/// How many names a text has.
fn count(text: &[u8]) -> usize
    requires { IsWritten text.now }
    ensures { result ≡ length (names_of text.now) }
{
    let mut names = 0;
    for _name in components(text) {
        names += 1;
    }
    names
}

/// Notes a location, and tells whether it wasn't noted before.
fn note(
    alloc: Global,
    seen: &mut BTreeMap<Vec<u8>, usize>,
    location: &[u8],
    number: usize,
) -> Result<bool, NoMemory>
    ensures { IfOk result (λ new. IsNoted seen.old location.now seen.new new) }
{
    if seen.contains_key(location) {
        return Ok(false);
    }
    let key = Bytes::copy(alloc, location)?.into_vec();
    seen.insert(key, number)?;
    Ok(true)
}

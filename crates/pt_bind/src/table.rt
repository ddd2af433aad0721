//! Tables of bindings.
ghost use Rattle.std.specs.Prelude.{◌≡◌, ◌≤◌, length, drop, nat_eq, bytes_eq, IfOk, IfSome, OnOk};
ghost use Rattle.std.specs.List.{find, list_any};
ghost use Rattle.std.specs.Option.{option_copied, option_map};
ghost use Rattle.pr_base.specs.Paths.{text_of};
ghost use Rattle.pt_bind.specs.Kept.{IsNoted};

use crate::text::{below_root, joined, rest_below};
use pr_base::{Bound, Bytes, NoMemory, components};
use std::alloc::Global;
use std::collections::BTreeMap;
use std::marker::Model;

/// The binding to which a text belongs, and where in the text's bytes its location ends.
#[derive(Clone, Copy)]
struct Owned {
    number: usize,
    end: usize,
}

/// Settled bindings, which contracts see as they were given. Their locations are kept in order, so that the
/// longest one that a text begins with is found among its components by binary search.
#[derive(Drop)]
pub struct Table {
    rows: Vec<Bound>,
    by_location: BTreeMap<Vec<u8>, usize>,
    alloc: Global,
}

impl Model for Table {
    ghost use Rattle.std.specs.Prelude.{List};
    ghost use Rattle.pr_base.specs.declared.bind.Bound.{Bound};
    ghost use Rattle.pt_bind.specs.Binding.{AreBounds};
    ghost use Rattle.pt_bind.specs.Kept.{IsIndex};

    ghost Value = { List Bound };

    ghost view = { λ t. t.rows.items };

    ghost invariant = { λ t. AreBounds t.rows.items × IsIndex t.rows.items t.by_location };
}

impl Table {
    ghost use Rattle.pt_bind.specs.Binding.{AreBounds, IsWritten, guest_of, host_of, index_of, is_point, names_of, rows_of};
    ghost use Rattle.pt_bind.specs.Kept.{IsOwned};

    /// A table of bindings.
    pub fn build(alloc: Global, bounds: &[Bound]) -> Result<Table, NoMemory>
        requires { AreBounds bounds.now }
        ensures { IfOk result (λ table. table ≡ bounds.now) }
    {
        let mut rows = Vec::new(alloc);
        let mut by_location = BTreeMap::new(alloc);
        for bound in bounds {
            note(
                alloc,
                &mut by_location,
                bound.location.as_slice(),
                rows.len(),
            )?;
            rows.push(copy(alloc, bound)?)?;
        }
        Ok(Table {
            rows,
            by_location,
            alloc,
        })
    }

    /// The host text of a guest text.
    pub fn host_of(&self, guest: &[u8]) -> Result<Bytes, NoMemory>
        requires { IsWritten guest.now }
        ensures host { IfOk result (λ host. host ≡ text_of (host_of (rows_of self.now) (names_of guest.now))) }
        ensures written { IfOk result IsWritten }
    {
        let owned = self.owned(guest);
        let source = self.rows[owned.number].source.as_slice();
        let host = joined(self.alloc, source, from(below_root(guest), owned.end))?;
        Ok(host)
    }

    /// The guest text of a host text, by the index of a binding; `None` exactly where the table has no binding of
    /// this index or the host text isn't at or below its source.
    pub fn guest_of(&self, index: u32, host: &[u8]) -> Result<Option<Bytes>, NoMemory>
        requires { IsWritten host.now }
        ensures guest { IfOk result (λ guest. guest ≡ option_map text_of (guest_of (rows_of self.now) index (names_of host.now))) }
        ensures written { IfOk result (λ guest. IfSome guest IsWritten) }
    {
        let Some(row) = self.row_of_index(index) else {
            return Ok(None);
        };
        match rest_below(row.source.as_slice(), host) {
            None => Ok(None),
            Some(rest) => Ok(Some(joined(self.alloc, row.location.as_slice(), rest)?)),
        }
    }

    /// The index of the binding to which a guest text belongs.
    pub fn index_of(&self, guest: &[u8]) -> u32
        requires { IsWritten guest.now }
        ensures { result ≡ index_of (rows_of self.now) (names_of guest.now) }
    {
        self.rows[self.owned(guest).number].index
    }

    /// Whether a host text is that of a mount point.
    pub fn is_point(&self, host: &[u8]) -> bool
        requires { IsWritten host.now }
        ensures { result ≡ is_point (rows_of self.now) (names_of host.now) }
    {
        self.has_point(host)
    }

    /// Whether bytes are those of a mount point.
    fn has_point(&self, host: &[u8]) -> bool
        ensures point { result ≡ list_any (λ row. bytes_eq row.point host.now) self.now }
        ensures kept { AreBounds self.now }
    {
        self.rows.iter().any(|row| row.point.as_slice() == host)
    }

    /// The row of an index.
    fn row_of_index(&self, index: u32) -> Option<&Bound>
        ensures row { option_copied result ≡ find (λ row. nat_eq row.index index) self.now }
        ensures kept { AreBounds self.now }
    {
        self.rows.iter().find(|row| row.index == index)
    }

    /// The binding to which a guest text belongs.
    fn owned(&self, guest: &[u8]) -> Owned
        requires { IsWritten guest.now }
        ensures { IsOwned (rows_of self.now) (names_of guest.now) result.number result.end }
    {
        let mut owned = Owned { number: 0, end: 0 };
        let mut end = 0;
        for part in components(guest) {
            end += 1 + part.len();
            if let Some(number) = self.by_location.get(&guest[..end]) {
                owned = Owned {
                    number: *number,
                    end,
                };
            }
        }
        owned
    }
}

/// Gives a location the number of its row, if it has none yet.
fn note(
    alloc: Global,
    by_location: &mut BTreeMap<Vec<u8>, usize>,
    location: &[u8],
    number: usize,
) -> Result<(), NoMemory>
    ensures { OnOk result (IsNoted by_location.old location.now number by_location.new) }
{
    if !by_location.contains_key(location) {
        let key = Bytes::copy(alloc, location)?.into_vec();
        by_location.insert(key, number)?;
    }
    Ok(())
}

/// What follows the first `end` bytes.
fn from(text: &[u8], end: usize) -> &[u8]
    requires { end ≤ length text.now }
    ensures { result.now ≡ drop end text.now }
{
    &text[end..]
}

/// A copy of a binding.
fn copy(alloc: Global, bound: &Bound) -> Result<Bound, NoMemory>
    ensures { IfOk result (λ copy. copy ≡ bound.now) }
{
    let location = Bytes::copy(alloc, bound.location.as_slice())?;
    let source = Bytes::copy(alloc, bound.source.as_slice())?;
    let point = Bytes::copy(alloc, bound.point.as_slice())?;
    Ok(Bound {
        index: bound.index,
        location,
        source,
        point,
    })
}

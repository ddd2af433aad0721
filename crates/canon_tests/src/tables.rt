//! Tables of bindings for tests.
ghost use Rattle.std.specs.Prelude.{◌≡◌, ◌++◌, ◌∷◌, [], OnOk, IfOk};

use pt_results::below::{Bound, Bytes, NoMemory, Table};
use std::alloc::Global;

fn bound(
    alloc: Global,
    index: u32,
    location: &[u8],
    source: &[u8],
    point: &[u8],
) -> Result<Bound, NoMemory>
    ensures { IfOk result (λ bound. bound ≡ record { index = index; location = location.now; source = source.now; point = point.now }) }
{
    let location = Bytes::copy(alloc, location)?;
    let source = Bytes::copy(alloc, source)?;
    let point = Bytes::copy(alloc, point)?;
    Ok(Bound {
        index,
        location,
        source,
        point,
    })
}

/// Adds the binding of a row to others.
fn add(
    alloc: Global,
    bounds: &mut Vec<Bound>,
    index: u32,
    location: &[u8],
    source: &[u8],
    point: &[u8],
) -> Result<(), NoMemory>
    ensures { OnOk result (bounds.new.items ≡ bounds.old.items ++ record { index = index; location = location.now; source = source.now; point = point.now } ∷ []) }
{
    let bound = bound(alloc, index, location, source, point)?;
    bounds.push(bound)?;
    Ok(())
}

/// A root with one directory bound in it.
pub fn one_binding(alloc: Global) -> Result<Table, NoMemory> {
    let mut bounds = Vec::new(alloc);
    add(alloc, &mut bounds, 0, b"/", b"/g", b"")?;
    add(alloc, &mut bounds, 1, b"/mnt", b"/data", b"/g/mnt")?;
    Table::build(alloc, bounds.as_slice())
}

/// Bindings in bindings, one source at two locations, and the whole host in the guest. The longer location stands
/// before the shorter one.
pub fn bindings_in_bindings(alloc: Global) -> Result<Table, NoMemory> {
    let mut bounds = Vec::new(alloc);
    add(alloc, &mut bounds, 0, b"/", b"/g", b"")?;
    add(alloc, &mut bounds, 4, b"/mnt/x", b"/data", b"/other/x")?;
    add(alloc, &mut bounds, 2, b"/mnt", b"/other", b"/g/mnt")?;
    add(alloc, &mut bounds, 3, b"/b", b"/data", b"/g/b")?;
    add(alloc, &mut bounds, 1, b"/all", b"/", b"/g/all")?;
    add(alloc, &mut bounds, 6, b"/proc", b"/proc", b"/g/proc")?;
    Table::build(alloc, bounds.as_slice())
}

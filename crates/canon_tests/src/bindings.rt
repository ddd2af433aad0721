//! What the calls on tables answer with ample memory.

use crate::tables;
use crate::texts::is_text;
use pt_results::below::{Bytes, NoMemory, Table};
use std::alloc::Global;
use std::test::Fail;

/// A guest text, its host text and its index.
type Host = (&'static [u8], &'static [u8], u32);

/// An index, a host text, and the guest text that they give.
type Guest = (u32, &'static [u8], Option<&'static [u8]>);

const HOSTS_OF_ONE: &[Host] = &[
    (b"/mnt/n", b"/data/n", 1),
    (b"/mntx", b"/g/mntx", 0),
    (b"/mnt", b"/data", 1),
    (b"/", b"/g", 0),
    (b"/a/mnt", b"/g/a/mnt", 0),
];

const GUESTS_OF_ONE: &[Guest] = &[
    (1, b"/data/n", Some(b"/mnt/n")),
    (1, b"/g", None),
    (1, b"/data", Some(b"/mnt")),
    (1, b"/datax", None),
    (0, b"/g", Some(b"/")),
    (0, b"/data", None),
    (2, b"/data", None),
];

// The longest location counts, whatever its place.
const HOSTS_OF_NESTED: &[Host] = &[
    (b"/mnt/x/n", b"/data/n", 4),
    (b"/mnt/o", b"/other/o", 2),
    (b"/mnt/xn", b"/other/xn", 2),
    (b"/b/f", b"/data/f", 3),
    (b"/f", b"/g/f", 0),
    (b"/all", b"/", 1),
    (b"/all/data/n", b"/data/n", 1),
];

const GUESTS_OF_NESTED: &[Guest] = &[
    (4, b"/data", Some(b"/mnt/x")),
    (3, b"/data", Some(b"/b")),
    (1, b"/data", Some(b"/all/data")),
    (1, b"/", Some(b"/all")),
    (2, b"/data", None),
    (5, b"/data", None),
];

/// Host texts, and whether they are those of mount points.
const POINTS_OF_NESTED: &[(&[u8], bool)] = &[
    (b"/g/mnt", true),
    (b"/other/x", true),
    (b"/g/mnt/x", false),
    (b"/g", false),
    (b"/", false),
    (b"/data", false),
];

fn is_bytes(found: &Option<Bytes>, wanted: Option<&[u8]>) -> bool {
    match (found, wanted) {
        (None, None) => true,
        (Some(found), Some(wanted)) => found.as_slice() == wanted,
        (None, Some(_)) | (Some(_), None) => false,
    }
}

/// The first row that the table doesn't meet, if there is one.
fn unmet_host(alloc: Global, table: &Table, rows: &[Host]) -> Result<Option<Host>, NoMemory> {
    for row in rows {
        let (guest, wanted, index) = *row;
        if !is_text(alloc, guest)? {
            return Ok(Some(*row));
        }
        let host = table.host_of(guest)?;
        if host.as_slice() != wanted || table.index_of(guest) != index {
            return Ok(Some(*row));
        }
    }
    Ok(None)
}

fn unmet_guest(alloc: Global, table: &Table, rows: &[Guest]) -> Result<Option<Guest>, NoMemory> {
    for row in rows {
        let (index, host, wanted) = *row;
        if !is_text(alloc, host)? {
            return Ok(Some(*row));
        }
        let guest = table.guest_of(index, host)?;
        if !is_bytes(&guest, wanted) {
            return Ok(Some(*row));
        }
    }
    Ok(None)
}

#[test]
fn tables_translate_both_ways(rt: HostRuntime) -> Result<(), Fail> {
    let alloc = rt.alloc();
    let table = tables::one_binding(alloc)?;
    assert!(rt; unmet_host(alloc, &table, HOSTS_OF_ONE)?.is_none());
    assert!(rt; unmet_guest(alloc, &table, GUESTS_OF_ONE)?.is_none());
    let table = tables::bindings_in_bindings(alloc)?;
    assert!(rt; unmet_host(alloc, &table, HOSTS_OF_NESTED)?.is_none());
    assert!(rt; unmet_guest(alloc, &table, GUESTS_OF_NESTED)?.is_none());
    for (host, wanted) in POINTS_OF_NESTED {
        if !is_text(alloc, host)? {
            return Err(Fail::from("no text"));
        }
        assert!(rt; table.is_point(host) == *wanted);
    }
    Ok(())
}

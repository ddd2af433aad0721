//! What the paths of calls are for, and the texts that take their places.
ghost use Rattle.std.specs.Prelude.{◌≡◌, IfOk};
ghost use Rattle.pt_canon.specs.pt_bind.Binding.{IsWritten, names_of, rows_of};
ghost use Rattle.pt_canon.specs.Canon.{IsAnswer};
ghost use Rattle.pt_args.specs.Purposes.{entry_swap, made_swap, named_path, opens, purpose_of, swap_for};

use crate::parting::parted;
use kr_calls::Request;
use pt_canon::below::pr_base::{Bytes, Errno, Last, NoMemory, WalkMode};
use pt_canon::below::pt_bind::Table;
use pt_canon::{Canon, WalkErr};
use std::alloc::Global;

/// What a path of a call is for.
#[derive(Clone, Copy)]
pub enum Purpose {
    /// Something that is there is looked up.
    LooksUp,
    /// It names an entry, there or free.
    NamesEntry,
    /// A file is opened that is made where it isn't there.
    MayMake,
}

/// Whether a call opens a file by its path.
pub(crate) fn opens(request: &Request) -> bool
    ensures { result ≡ opens request.now }
{
    matches!(request, Request::Openat { .. })
}

/// What a path is for, by the mode of its walk, in a call that opens a file and in another one.
pub(crate) fn purpose_of(opening: bool, mode: WalkMode) -> Purpose
    ensures { result ≡ purpose_of opening mode }
{
    match mode {
        WalkMode::Look | WalkMode::LookLink => Purpose::LooksUp,
        WalkMode::Name if opening => Purpose::MayMake,
        WalkMode::Name => Purpose::NamesEntry,
        WalkMode::Open => Purpose::MayMake,
    }
}

/// The text that takes the place of a path, by where the path leads.
pub(crate) fn text_for(
    alloc: Global,
    table: &Table,
    purpose: Purpose,
    canon: &Canon,
) -> Result<Bytes, WalkErr>
    requires { IsWritten canon.now.guest }
    ensures { IsAnswer (swap_for (rows_of table.now) purpose canon.now) result }
{
    match purpose {
        Purpose::LooksUp => {
            let host = Bytes::copy(alloc, canon.host.as_slice())?;
            Ok(host)
        }
        Purpose::NamesEntry => {
            let text = entry_text(alloc, table, canon)?;
            Ok(text)
        }
        Purpose::MayMake => made_text(alloc, table, canon),
    }
}

/// The text for a file that may be made: one that is there goes by its own host text, so that a mount point leads to its
/// source. EISDIR for a name with a slash behind it.
fn made_text(alloc: Global, table: &Table, canon: &Canon) -> Result<Bytes, WalkErr>
    requires { IsWritten canon.now.guest }
    ensures { IsAnswer (made_swap (rows_of table.now) canon.now canon.now.last) result }
{
    match canon.last {
        Last::Name if canon.slash => Err(WalkErr::Err(Errno::EISDIR)),
        Last::Name if canon.exists => {
            let host = Bytes::copy(alloc, canon.host.as_slice())?;
            Ok(host)
        }
        Last::Name | Last::Dot | Last::DotDot | Last::Root => {
            let text = entry_text(alloc, table, canon)?;
            Ok(text)
        }
    }
}

/// The text for an entry: the host text of its directory, a slash, the last component, and the slash behind that. The
/// root has no entry and goes by `/`.
fn entry_text(alloc: Global, table: &Table, canon: &Canon) -> Result<Bytes, NoMemory>
    requires { IsWritten canon.now.guest }
    ensures { IfOk result (λ text. text ≡ entry_swap (rows_of table.now) canon.now canon.now.last) }
{
    let guest = canon.guest.as_slice();
    match canon.last {
        Last::Root => Bytes::copy(alloc, b"/"),
        Last::Dot => named_path(table, guest, b".", canon.slash),
        Last::DotDot => named_path(table, guest, b"..", canon.slash),
        Last::Name => match parted(guest) {
            Some((dir, name)) => named_path(table, dir, name, canon.slash),
            None => Bytes::copy(alloc, b"/"),
        },
    }
}

/// The host text of a directory, a slash, a component, and the slash behind that if there is one.
fn named_path(table: &Table, dir: &[u8], part: &[u8], behind: bool) -> Result<Bytes, NoMemory>
    requires { IsWritten dir.now }
    ensures { IfOk result (λ path. path ≡ named_path (rows_of table.now) (names_of dir.now) part.now behind) }
{
    let mut path = table.host_of(dir)?;
    path.append(b"/")?;
    path.append(part)?;
    if !behind {
        return Ok(path);
    }
    path.append(b"/")?;
    Ok(path)
}

//! Calls that would take a mount point away.
ghost use Rattle.std.specs.Prelude.{◌≡◌, ◌∷◌, IfOk};
ghost use Rattle.pt_canon.specs.pr_base.Paths.{IsPart, below_root};
ghost use Rattle.pt_canon.specs.pt_bind.Binding.{IsWritten, names_of, rows_of};
ghost use Rattle.pt_args.specs.Points.{both_are_busy, is_at_point, is_point_text, one_is_busy};

use crate::parting::parted;
use kr_calls::Request;
use pt_canon::Canon;
use pt_canon::below::pr_base::{Bytes, Last, NoMemory};
use pt_canon::below::pt_bind::Table;

/// Whether a call with one path would remove a mount point.
pub(crate) fn one_is_busy(table: &Table, request: &Request, canon: &Canon) -> Result<bool, NoMemory>
    requires { IsWritten canon.now.guest }
    ensures { IfOk result (λ busy. busy ≡ one_is_busy (rows_of table.now) request.now canon.now) }
{
    match request {
        Request::Unlinkat { .. } => is_at_point(table, canon),
        _ => Ok(false),
    }
}

/// Whether a call with two paths would move a mount point away, or an entry that is there over one.
pub(crate) fn both_are_busy(
    table: &Table,
    request: &Request,
    old: &Canon,
    new: &Canon,
) -> Result<bool, NoMemory>
    requires old { IsWritten old.now.guest }
    requires new { IsWritten new.now.guest }
    ensures { IfOk result (λ busy. busy ≡ both_are_busy (rows_of table.now) request.now old.now new.now) }
{
    match request {
        Request::Renameat2 { .. } => {
            if is_at_point(table, old)? {
                return Ok(true);
            }
            if !old.exists {
                return Ok(false);
            }
            is_at_point(table, new)
        }
        _ => Ok(false),
    }
}

/// Whether a path ends with a name that is, below the host text of its directory, the host text of a mount point.
fn is_at_point(table: &Table, canon: &Canon) -> Result<bool, NoMemory>
    requires { IsWritten canon.now.guest }
    ensures { IfOk result (λ is. is ≡ is_at_point (rows_of table.now) canon.now canon.now.last) }
{
    match canon.last {
        Last::Name => is_point_text(table, canon.guest.as_slice()),
        Last::Dot | Last::DotDot | Last::Root => Ok(false),
    }
}

/// Whether a guest text is a name that, below the host text of its directory, is the host text of a mount point.
fn is_point_text(table: &Table, guest: &[u8]) -> Result<bool, NoMemory>
    requires { IsWritten guest.now }
    ensures { IfOk result (λ is. is ≡ is_point_text (rows_of table.now) (names_of guest.now)) }
{
    let Some((dir, name)) = parted(guest) else {
        return Ok(false);
    };
    let host = table.host_of(dir)?;
    let entry = child(host, name)?;
    Ok(table.is_point(entry.as_slice()))
}

/// The text of a name below another text.
fn child(text: Bytes, name: &[u8]) -> Result<Bytes, NoMemory>
    requires text { IsWritten text }
    requires name { IsPart name.now }
    ensures written { IfOk result IsWritten }
    ensures names { IfOk result (λ child. names_of child ≡ name.now ∷ names_of text) }
{
    let mut path = below_root(text);
    path.append(b"/")?;
    path.append(name)?;
    Ok(path)
}

/// The bytes of a text below the root: all of them, or none where it is the root.
fn below_root(text: Bytes) -> Bytes
    requires { IsWritten text }
    ensures { result ≡ below_root (names_of text) }
{
    if text.len() != 1 {
        return text;
    }
    let mut none = text;
    none.clear();
    none
}

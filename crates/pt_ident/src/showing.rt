//! Where an identity is shown in place of the host user, and what was said of files.
ghost use Rattle.std.specs.Prelude.{◌≡◌, ◌+◌, ◌≤◌, length};
ghost use Rattle.std.specs.Option.{option_copied};
ghost use Rattle.std.specs.Int.{to_le_bytes, w32};
ghost use Rattle.std.proofs.Math.Seq.{sets};
ghost use Rattle.pt_ident.specs.Showing.{auxiliary_values, field, is_of_tree, shown_at, shown_over, shown_stat};

use crate::change::Shown;
use crate::ids::{EFFECTIVE, Ids, REAL};
use crate::owners::Owners;
use kr_inode::User;
use kr_inode::below::pr_base::limits::MODES;
use kr_inode::below::pr_base::{field_u32, field_u64};

/// The places of `st_dev`, `st_ino`, `st_mode`, `st_uid` and `st_gid` in the structure `stat`.
const DEVICE_PLACE: usize = 0;

const INODE_PLACE: usize = 8;

const MODE_PLACE: usize = 16;

const UID_PLACE: usize = 24;

const GID_PLACE: usize = 28;

/// Shows in a structure `stat` the host user's uid as `ids.0` and its gid as `ids.1`, and other owners as they are. Where there is something to
/// be remembered, what was said of a directory, a file or a link of the tree stands over that.
pub fn fix_stat(bytes: &mut [u8; 128], user: User, ids: (u32, u32), owners: Option<&Owners>)
    ensures { bytes.new ≡ shown_stat user ids.0 ids.1 (option_copied owners.entry) bytes.old }
{
    let (uid, gid) = ids;
    show(bytes, UID_PLACE, user.uid, uid);
    show(bytes, GID_PLACE, user.gid, gid);
    match owners {
        Some(owners) => show_over(bytes, owners),
        None => {}
    }
}

/// Puts what was said of a file in the place of what stands there.
fn show_over(bytes: &mut [u8; 128], owners: &Owners)
    ensures { bytes.new ≡ shown_over owners.now bytes.old }
{
    let mode = number_at(bytes, MODE_PLACE);
    if !is_of_tree(wide_number_at(bytes, DEVICE_PLACE), mode) {
        return;
    }
    let there = Shown {
        uid: number_at(bytes, UID_PLACE),
        gid: number_at(bytes, GID_PLACE),
        mode,
    };
    let ino = wide_number_at(bytes, INODE_PLACE);
    let Shown { uid, gid, mode } = owners.shown(ino, there);
    put(bytes, MODE_PLACE, mode);
    put(bytes, UID_PLACE, uid);
    put(bytes, GID_PLACE, gid);
}

/// Whether something is remembered of such files: of a directory, a file or a link, on the device of the tree.
fn is_of_tree(device: u64, mode: u32) -> bool
    ensures { result ≡ is_of_tree device mode }
{
    let kind = mode / MODES;
    device == 1 && (kind == 4 || kind == 8 || kind == 10)
}

/// The number of four bytes that stands at a place.
fn number_at(bytes: &[u8], at: usize) -> u32
    requires { at + 4 ≤ length bytes.now }
    ensures { result ≡ field at 4 bytes.now }
{
    match field_u32(bytes, at) {
        Some(number) => number,
        None => unreachable!(),
    }
}

/// The number of eight bytes that stands at a place.
fn wide_number_at(bytes: &[u8], at: usize) -> u64
    requires { at + 8 ≤ length bytes.now }
    ensures { result ≡ field at 8 bytes.now }
{
    match field_u64(bytes, at) {
        Some(number) => number,
        None => unreachable!(),
    }
}

/// Shows the number at a place as another where it is the own one.
fn show(bytes: &mut [u8], at: usize, own: u32, other: u32)
    requires { at + 4 ≤ length bytes.old }
    ensures { bytes.new ≡ shown_at at own other bytes.old }
{
    if field_u32(bytes, at) == Some(own) {
        put(bytes, at, other);
    }
}

/// Puts a number of four bytes at a place.
fn put(bytes: &mut [u8], at: usize, number: u32)
    requires { at + 4 ≤ length bytes.old }
    ensures { bytes.new ≡ sets bytes.old at (to_le_bytes w32 number) }
{
    bytes[at..at + 4].copy_from_slice(&number.to_le_bytes());
}

/// The values of AT_UID, AT_EUID, AT_GID and AT_EGID (getauxval(3)): real and effective user, real and effective group.
pub fn fix_aux(ids: &Ids) -> [u32; 4]
    ensures { result ≡ auxiliary_values ids.now }
{
    let user = ids.user();
    let group = ids.group();
    [user[REAL], user[EFFECTIVE], group[REAL], group[EFFECTIVE]]
}

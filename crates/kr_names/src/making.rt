//! Calls that make directories and links.
ghost use Rattle.std.specs.Prelude.{◌≡◌, ◌≢◌, ◌+◌, ◌<◌, ◌^◌, ℕ, List};
ghost use Rattle.kr_seen.specs.kr_tree.Changes.{next_serial};
ghost use Rattle.kr_seen.specs.kr_view.View.{Row};
ghost use Rattle.kr_seen.specs.kr_model.NameRows.{mkdirat_row, symlinkat_row};
ghost use Rattle.kr_seen.specs.kr_model.State.{inode_of as host_inode};
ghost use Rattle.kr_seen.specs.kr_model.declared.outcome.Outcome.TheVariants.{NoMemory as WantOfMemory};
ghost use Rattle.kr_seen.specs.kr_ops.Sound.{IsServed, IsSound, IsSoundFor};
ghost use Rattle.kr_seen.specs.Performing.{PerformsAt, seen_made};
ghost use Rattle.kr_seen.specs.Resolved.{IsFreeIn};

use crate::adding::{add_named, unmasked};
use kr_seen::below::{Bytes, Errno, Node, Outcome, State, Target};
use kr_seen::{Made, made, refused};

/// The bits of a mode that mkdirat(2) takes.
const DIRECTORY_BITS: u32 = 0o1777;

/// The mode of a link.
const LINK_MODE: u16 = 0o777;

/// mkdirat(2): EEXIST of an ending that is no name, and of what is there; ENOENT or EACCES of the directory, ENOSPC. A slash is
/// ignored. The directory is the user's, and has the mode's bits 01777 but for those of the mask.
pub fn mkdirat<T: Copy, const M: u8>(
    state: &mut State<T, M>,
    pid: u32,
    target: &Target<T>,
    mode: u32,
) -> Outcome
    requires caller { IsSoundFor pid state.old }
    requires free { IsFreeIn state.old.tree target.now }
    requires numbers { state.old.tree.next + 1 < 2 ^ 32 }
    requires serials { next_serial state.old.tree (host_inode target.now.dir.host) + 1 < 2 ^ 64 }
    ensures performs { (n : T → ℕ) (table : List Row) → PerformsAt target.now pid (λ k. mkdirat_row k (seen_made n table pid state.old target.now) mode) state.old state.new result }
    ensures served { result ≢ WantOfMemory → IsServed state.new }
{
    match made(target) {
        Made::NoName(_last) => refused(Errno::EEXIST),
        Made::Over => refused(Errno::EEXIST),
        Made::Makes {
            dir,
            name,
            slash: _,
        } => {
            let mode = unmasked(state, pid, mode & DIRECTORY_BITS);
            add_named(state, pid, dir, name, Node::Dir, mode)
        }
    }
}

/// symlinkat(2): EEXIST of an ending that is no name, and of what is there; ENOENT of a slash; ENOENT or EACCES of the directory,
/// ENOSPC. The link is the user's, and has the mode 0777.
pub fn symlinkat<T: Copy, const M: u8>(
    state: &mut State<T, M>,
    pid: u32,
    target: &Target<T>,
    text: Bytes,
) -> Outcome
    requires sound { IsSound state.old }
    requires free { IsFreeIn state.old.tree target.now }
    requires numbers { state.old.tree.next + 1 < 2 ^ 32 }
    requires serials { next_serial state.old.tree (host_inode target.now.dir.host) + 1 < 2 ^ 64 }
    ensures performs { (n : T → ℕ) (table : List Row) → PerformsAt target.now pid (λ k. symlinkat_row k (seen_made n table pid state.old target.now) text) state.old state.new result }
    ensures served { result ≢ WantOfMemory → IsServed state.new }
{
    match made(target) {
        Made::NoName(_last) => refused(Errno::EEXIST),
        Made::Over => refused(Errno::EEXIST),
        Made::Makes { dir, name, slash } => {
            if slash {
                refused(Errno::ENOENT)
            } else {
                add_named(state, pid, dir, name, Node::Link(text), LINK_MODE)
            }
        }
    }
}

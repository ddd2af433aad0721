//! The call that opens files.
ghost use Rattle.std.specs.Prelude.{◌≡◌, ◌≢◌, ◌+◌, ◌<◌, ◌^◌};
ghost use Rattle.kr_seen.specs.kr_tree.Changes.{next_serial};
ghost use Rattle.kr_seen.specs.kr_model.FileRows.{openat_row};
ghost use Rattle.kr_seen.specs.kr_model.Operation.{opened as if_opened};
ghost use Rattle.kr_seen.specs.kr_model.State.{inode_of as host_inode};
ghost use Rattle.kr_seen.specs.kr_model.declared.outcome.Outcome.TheVariants.{NoMemory as WantOfMemory};
ghost use Rattle.kr_seen.specs.kr_ops.Sound.{IsLawfulFor, IsServed};
ghost use Rattle.kr_seen.specs.Performing.{PerformsAt, seen_opened};
ghost use Rattle.kr_seen.specs.Resolved.{IsFoundIn, IsFreeIn};

use crate::creating::open_new;
use crate::flags::excludes;
use crate::found::open_found;
use kr_seen::below::{Errno, Outcome, Places, State, Target};
use kr_seen::{Opening, opened, refused};
use std::alloc::Global;

/// openat(2). With O_CREAT an ending that is no name is EEXIST with O_EXCL and else EISDIR, and a slash is EISDIR. What is there:
/// EEXIST with O_CREAT and O_EXCL; ELOOP of a link; ENOTDIR of what is no directory with O_DIRECTORY; EISDIR of a directory to be
/// written, made or cut; EACCES, also of O_TRUNC without the right to write; EMFILE; then O_TRUNC cuts it to 0. What is missing:
/// ENOENT or EACCES of its directory, EMFILE, ENOSPC; the file is the user's, and has the mode's twelve bits but for those of the
/// mask. The lowest free descriptor.
pub fn openat<P: Places, const M: u8>(
    alloc: Global,
    state: &mut State<P::Mount, M>,
    places: &P,
    pid: u32,
    target: &Target<P::Mount>,
    flags: u32,
    mode: u32,
) -> Outcome
    requires caller { IsLawfulFor P.number (P.mounts places.now) pid state.old }
    requires found { IsFoundIn state.old.tree target.now }
    requires free { IsFreeIn state.old.tree target.now }
    requires numbers { state.old.tree.next + 1 < 2 ^ 32 }
    requires serials { next_serial state.old.tree (host_inode target.now.dir.host) + 1 < 2 ^ 64 }
    requires files { state.old.files.table.last_file + 1 < 2 ^ 64 }
    ensures performs { PerformsAt target.now pid (λ k. if_opened (seen_opened P.number (P.mounts places.now) pid state.old flags target.now) (λ o. openat_row k o flags mode)) state.old state.new result }
    ensures served { result ≢ WantOfMemory → IsServed state.new }
{
    let Some(opening) = opened(places, state, target, flags) else {
        return refused(Errno::ENOENT);
    };
    match opening {
        Opening::NoName(_last) => {
            if excludes(flags) {
                refused(Errno::EEXIST)
            } else {
                refused(Errno::EISDIR)
            }
        }
        Opening::Slashed => refused(Errno::EISDIR),
        Opening::Found(looked) => match target.found {
            Some(place) => open_found(alloc, state, pid, place.mount, looked, flags),
            None => unreachable!(),
        },
        Opening::New { dir, name } => {
            open_new(alloc, state, pid, target.dir.mount, dir, name, flags, mode)
        }
    }
}

//! From targets to what a call is told of them.
ghost use Rattle.std.specs.Prelude.{◌≡◌, ℕ, List};
ghost use Rattle.std.specs.Option.{option_map, option_map_or};
ghost use Rattle.kr_ops.specs.pr_base.declared.errno.Errno.TheVariants.{ENOENT as NoEntry};
ghost use Rattle.kr_ops.specs.kr_view.Leads.{numbered};
ghost use Rattle.kr_ops.specs.kr_view.View.{Row};
ghost use Rattle.kr_ops.specs.kr_model.Seen.{Opens, WalkFails};
ghost use Rattle.kr_ops.specs.kr_model.State as model;
ghost use Rattle.kr_ops.specs.kr_model.State.{inode_of as host_inode};
ghost use Rattle.kr_ops.specs.kr_model.FileRows.{creates};
ghost use Rattle.kr_ops.specs.kr_model.Walks.{created_at, entry_of, is_covered, linked_at, looked_at, made_at, moved_at, opened_at, taken_at};
ghost use Rattle.kr_ops.specs.Meaning.{meaning};
ghost use Rattle.kr_seen.specs.Numbered.{state_numbered};
ghost use Rattle.kr_seen.specs.Placed.{placed_in};
ghost use Rattle.kr_seen.specs.Told.{entered_told, entry_told, found_host, linked_told, looked_told, made_told, moved_told, opening_told, taken_told};

use crate::asking::is_directory_host;
use crate::told::{Entered, Entry, Linked, Looked, Made, Moved, Opening, Taken};
use bitflags::Flags;
use kr_ops::State;
use kr_ops::below::{Host, Ino, Place, Places, Target};
use kr_walk::below::{Last, OpenFlags};

/// Whether openat(2) may make a file.
pub fn creates(flags: u32) -> bool
    ensures { result ≡ creates flags }
{
    flags & OpenFlags::CREAT.bits() == OpenFlags::CREAT.bits()
}

/// The inode of an object; what stands in the process directory has that directory's.
pub fn inode_of(host: Host) -> Ino
    ensures { result ≡ host_inode host }
{
    match host {
        Host::Node(ino) | Host::Proc(ino, _) => ino,
    }
}

/// The object that was found, whatever its mount is.
fn found_host<M: Copy>(found: Option<Place<M>>) -> Option<Host>
    ensures { result ≡ found_host found }
{
    match found {
        Some(place) => Some(place.host),
        None => None,
    }
}

/// Whether a mount stands at a name in a directory. In the process directory none does.
fn is_covered<P: Places>(places: &P, dir: Host, name: &[u8]) -> bool
    ensures { result ≡ is_covered (P.mounts places.now) dir name.now }
{
    match dir {
        Host::Node(ino) => places.covered(ino, name),
        Host::Proc(_, _) => false,
    }
}

/// The entry by which something was found: of the source of a mount that is no directory the one at which it was settled.
fn entry_of<'a, P: Places>(
    places: &'a P,
    target: &'a Target<P::Mount>,
    found: Place<P::Mount>,
) -> Entry<'a>
    ensures { (pid : ℕ) (s : model.State ℕ model.Image) → entry_told result ≡ entry_of (P.mounts places.now) pid s (placed_in P.number target.now) (numbered P.number found) }
{
    match places.source(found.mount) {
        Some((dir, name)) => Entry { dir, name },
        None => Entry {
            dir: inode_of(target.dir.host),
            name: target.name.as_slice(),
        },
    }
}

/// What is told of what was found, and of what is no directory the entry that an opening remembers.
fn looked_at<'a, P: Places, const M: u8>(
    places: &'a P,
    state: &State<P::Mount, M>,
    target: &'a Target<P::Mount>,
    found: Place<P::Mount>,
) -> Looked<'a>
    ensures { (pid : ℕ) → looked_told result ≡ looked_at (P.mounts places.now) pid (state_numbered P.number (meaning state.now)) (placed_in P.number target.now) (numbered P.number found) }
{
    let entry = if is_directory_host(state, found.host) {
        None
    } else {
        Some(entry_of(places, target, found))
    };
    Looked {
        host: found.host,
        entry,
    }
}

/// What is told of a path that is looked up; `None` exactly where it has a free name.
pub fn looked<'a, P: Places, const M: u8>(
    places: &'a P,
    state: &State<P::Mount, M>,
    target: &'a Target<P::Mount>,
) -> Option<Looked<'a>>
    ensures { (pid : ℕ) → option_map looked_told result ≡ option_map (looked_at (P.mounts places.now) pid (state_numbered P.number (meaning state.now)) (placed_in P.number target.now)) (placed_in P.number target.now).found }
{
    match target.found {
        Some(found) => Some(looked_at(places, state, target, found)),
        None => None,
    }
}

/// What is told of an entry that is to be taken away or moved.
pub fn taken<'a, P: Places>(places: &P, target: &'a Target<P::Mount>) -> Taken<'a>
    ensures { (pid : ℕ) (s : model.State ℕ model.Image) → taken_told result ≡ taken_at (P.mounts places.now) pid s (placed_in P.number target.now) }
{
    match target.last {
        Last::Name => {
            if is_covered(places, target.dir.host, target.name.as_slice()) {
                Taken::Covered
            } else {
                Taken::Takes(Entered {
                    dir: target.dir.host,
                    name: target.name.as_slice(),
                    slash: target.slash,
                    found: found_host(target.found),
                })
            }
        }
        last => Taken::NoName(last),
    }
}

/// What is told of an entry that is to be made.
pub fn made<M: Copy>(target: &Target<M>) -> Made<'_>
    ensures { (number : M → ℕ) (table : List Row) (pid : ℕ) (s : model.State ℕ model.Image) → made_told result ≡ made_at table pid s (placed_in number target.now) }
{
    match target.last {
        Last::Name => {
            if target.found.is_some() {
                Made::Over
            } else {
                Made::Makes {
                    dir: target.dir.host,
                    name: target.name.as_slice(),
                    slash: target.slash,
                }
            }
        }
        last => Made::NoName(last),
    }
}

/// What is told of a file that is opened and may be made.
fn created<'a, P: Places, const M: u8>(
    places: &'a P,
    state: &State<P::Mount, M>,
    target: &'a Target<P::Mount>,
) -> Opening<'a>
    ensures { (pid : ℕ) → opening_told result ≡ created_at (P.mounts places.now) pid (state_numbered P.number (meaning state.now)) (placed_in P.number target.now) }
{
    match target.last {
        Last::Name => {
            if target.slash {
                return Opening::Slashed;
            }
            match target.found {
                Some(found) => Opening::Found(looked_at(places, state, target, found)),
                None => Opening::New {
                    dir: target.dir.host,
                    name: target.name.as_slice(),
                },
            }
        }
        last => Opening::NoName(last),
    }
}

/// What is told of a file that is opened; `None` exactly where it isn't there and isn't made.
pub fn opened<'a, P: Places, const M: u8>(
    places: &'a P,
    state: &State<P::Mount, M>,
    target: &'a Target<P::Mount>,
    flags: u32,
) -> Option<Opening<'a>>
    ensures { (pid : ℕ) → option_map_or (λ o. Opens (opening_told o)) result (WalkFails NoEntry) ≡ opened_at (P.mounts places.now) pid (state_numbered P.number (meaning state.now)) flags (placed_in P.number target.now) }
{
    if creates(flags) {
        return Some(created(places, state, target));
    }
    match target.found {
        Some(found) => Some(Opening::Found(looked_at(places, state, target, found))),
        None => None,
    }
}

/// What is told of another name for what is there; `None` exactly where it isn't there.
pub fn linked<'a, P: Places, const M: u8>(
    places: &'a P,
    state: &State<P::Mount, M>,
    old: &'a Target<P::Mount>,
    new: &'a Target<P::Mount>,
) -> Option<Linked<'a>>
    ensures { (pid : ℕ) → option_map_or linked_told result (WalkFails NoEntry) ≡ linked_at (P.mounts places.now) pid (state_numbered P.number (meaning state.now)) (placed_in P.number old.now) (placed_in P.number new.now) }
{
    match old.found {
        Some(found) => Some(Linked {
            old: looked_at(places, state, old, found),
            new: made(new),
            same_mount: places.same(found.mount, new.dir.mount),
        }),
        None => None,
    }
}

/// What is told of an entry that is moved.
pub fn moved<'a, P: Places>(
    places: &P,
    old: &'a Target<P::Mount>,
    new: &'a Target<P::Mount>,
) -> Moved<'a>
    ensures { (pid : ℕ) (s : model.State ℕ model.Image) → moved_told result ≡ moved_at (P.mounts places.now) pid s (placed_in P.number old.now) (placed_in P.number new.now) }
{
    Moved {
        old: taken(places, old),
        new: taken(places, new),
        same_mount: places.same(old.dir.mount, new.dir.mount),
    }
}

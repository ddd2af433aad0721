//! What a call would break of the rules on changes, told before it is carried out.
ghost use Rattle.std.specs.Prelude.{◌≡◌, ℕ, []};
ghost use Rattle.std.specs.Option.{option_and_then, option_map_or};
ghost use Rattle.kr_seen.specs.kr_model.Asking.{descriptor_number};
ghost use Rattle.kr_seen.specs.kr_model.NameRows.{is_one};
ghost use Rattle.kr_seen.specs.kr_model.State.{opened};
ghost use Rattle.kr_seen.specs.kr_model.Walks.{targets_of};
ghost use Rattle.kr_seen.specs.kr_ops.Meaning.{meaning};
ghost use Rattle.kr_seen.specs.kr_ops.Sound.{IsServed, IsSound};
ghost use Rattle.kr_seen.specs.CallWalks.{AreTargets};
ghost use Rattle.kr_seen.specs.Numbered.{state_numbered};
ghost use Rattle.kr_seen.specs.Told.{taken_told};
ghost use Rattle.kr_calm.specs.Foreseen.{call_foreseen, foreseen_of, mode_opened, nothing};
ghost use Rattle.kr_calm.specs.Prospects.{mode_set, move, removal, renameat2_made, unlinkat_made};
ghost use Rattle.kr_calm.specs.Questions.{HaveFewPoints};

use crate::judging::{
    guarded, removal_takes_source, removal_takes_used, rename_takes_source, rename_takes_used,
};
use crate::noting::natural;
use kr_seen::below::{Host, Ino, Place, Places, Request, State};
use kr_seen::{Taken, Targets, taken};

/// What a call would break of the rules on what is really changed, if it answered 0.
#[derive(Clone, Copy)]
pub struct Foreseen {
    /// Whether it takes a source away, or moves what stands above a source or a mount point (rule 3).
    pub takes_source: bool,
    /// Whether it takes a directory in use away, or moves one, or one above it (rule 4).
    pub takes_used: bool,
    /// The inode whose mode it changes, where that gives search and has to go on giving it (rule 5).
    pub shutting: Option<Ino>,
}

/// What is foreseen of a call that changes neither names nor modes.
fn nothing() -> Foreseen
    ensures { result ≡ nothing }
{
    Foreseen {
        takes_source: false,
        takes_used: false,
        shutting: None,
    }
}

/// What is foreseen of a name that goes.
fn foresee_removal<P: Places, const M: u8>(
    places: &P,
    state: &State<P::Mount, M>,
    dir: Host,
    name: &[u8],
) -> Foreseen
    requires mounts { HaveFewPoints (P.mounts places.now) }
    requires served { IsServed state.now }
    ensures { result ≡ foreseen_of (P.mounts places.now) (meaning state.now) (removal dir name.now) }
{
    match dir {
        Host::Node(dir) => Foreseen {
            takes_source: removal_takes_source(places, state, dir, name),
            takes_used: removal_takes_used(state, dir, name),
            shutting: None,
        },
        Host::Proc(_, _) => nothing(),
    }
}

/// What is foreseen of a name that is moved.
fn foresee_move<P: Places, const M: u8>(
    places: &P,
    state: &State<P::Mount, M>,
    dir: Host,
    name: &[u8],
    to: Host,
    new: &[u8],
) -> Foreseen
    requires mounts { HaveFewPoints (P.mounts places.now) }
    requires served { IsServed state.now }
    ensures { result ≡ foreseen_of (P.mounts places.now) (meaning state.now) (move dir name.now to new.now) }
{
    match (dir, to) {
        (Host::Node(dir), Host::Node(to)) => Foreseen {
            takes_source: rename_takes_source(places, state, dir, name, to, new),
            takes_used: rename_takes_used(state, dir, name, to, new),
            shutting: None,
        },
        _ => nothing(),
    }
}

/// What is foreseen of an object whose mode is changed.
fn foresee_mode<P: Places, const M: u8>(
    places: &P,
    state: &State<P::Mount, M>,
    host: Host,
) -> Foreseen
    requires mounts { HaveFewPoints (P.mounts places.now) }
    requires served { IsServed state.now }
    ensures { (mode : ℕ) → result ≡ foreseen_of (P.mounts places.now) (meaning state.now) (mode_set host mode) }
{
    match host {
        Host::Node(ino) => Foreseen {
            takes_source: false,
            takes_used: false,
            shutting: guarded(places, state, ino),
        },
        Host::Proc(_, _) => nothing(),
    }
}

/// What is foreseen of a change of the mode of what a path leads to.
fn foresee_found_mode<P: Places, const M: u8>(
    places: &P,
    state: &State<P::Mount, M>,
    found: Option<Place<P::Mount>>,
) -> Foreseen
    requires mounts { HaveFewPoints (P.mounts places.now) }
    requires served { IsServed state.now }
    ensures { (mode : ℕ) → result ≡ foreseen_of (P.mounts places.now) (meaning state.now) (option_map_or (λ p. mode_set p.host mode) found []) }
{
    match found {
        Some(place) => foresee_mode(places, state, place.host),
        None => nothing(),
    }
}

/// What is foreseen of an entry that is to be taken away.
fn foresee_taken<P: Places, const M: u8>(
    places: &P,
    state: &State<P::Mount, M>,
    taken: Taken<'_>,
) -> Foreseen
    requires mounts { HaveFewPoints (P.mounts places.now) }
    requires served { IsServed state.now }
    ensures { result ≡ foreseen_of (P.mounts places.now) (meaning state.now) (unlinkat_made (taken_told taken.entry)) }
{
    match taken {
        Taken::Takes(entry) => foresee_removal(places, state, entry.dir, entry.name),
        Taken::NoName(_) | Taken::Covered => nothing(),
    }
}

/// Whether two objects are one.
fn is_one(found: Host, other: Option<Host>) -> bool
    ensures { result ≡ is_one found other }
{
    match other {
        Some(host) => found == host,
        None => false,
    }
}

/// What is foreseen of an entry that is to be moved. Two names of one object are left as they are.
fn foresee_moved<P: Places, const M: u8>(
    places: &P,
    state: &State<P::Mount, M>,
    old: Taken<'_>,
    new: Taken<'_>,
) -> Foreseen
    requires mounts { HaveFewPoints (P.mounts places.now) }
    requires served { IsServed state.now }
    ensures { result ≡ foreseen_of (P.mounts places.now) (meaning state.now) (renameat2_made (taken_told old.entry) (taken_told new.entry)) }
{
    match (old, new) {
        (Taken::Takes(old), Taken::Takes(new)) => match old.found {
            Some(found) => {
                if is_one(found, new.found) {
                    nothing()
                } else {
                    foresee_move(places, state, old.dir, old.name, new.dir, new.name)
                }
            }
            None => nothing(),
        },
        _ => nothing(),
    }
}

/// What is foreseen of a change of the mode of what is open under a descriptor.
fn foresee_open_mode<P: Places, const M: u8>(
    places: &P,
    state: &State<P::Mount, M>,
    pid: u32,
    fd: i32,
) -> Foreseen
    requires mounts { HaveFewPoints (P.mounts places.now) }
    requires sound { IsSound state.now }
    ensures { (mode : ℕ) → result ≡ foreseen_of (P.mounts places.now) (meaning state.now) (mode_opened mode (option_and_then (λ fd. opened pid fd (meaning state.now)) (descriptor_number fd))) }
{
    let Some(number) = natural(fd) else {
        return nothing();
    };
    match state.opened(pid, number) {
        Some(opened) => foresee_found_mode(places, state, opened.place),
        None => nothing(),
    }
}

/// What a call of a process would break of the rules on what is really changed, if it answered 0; its paths led to these targets.
pub fn foresee<P: Places, const M: u8>(
    places: &P,
    state: &State<P::Mount, M>,
    pid: u32,
    request: &Request,
    targets: &Targets<P::Mount>,
) -> Foreseen
    requires mounts { HaveFewPoints (P.mounts places.now) }
    requires sound { IsSound state.now }
    ensures { AreTargets P.number (targets_of (P.mounts places.now) pid (state_numbered P.number (meaning state.now)) request.now) (Ok targets.now) → result ≡ call_foreseen (P.mounts places.now) pid request.now (state_numbered P.number (meaning state.now)) }
{
    match request {
        Request::Unlinkat { .. } => match &targets.first {
            Some(target) => foresee_taken(places, state, taken(places, target)),
            None => nothing(),
        },
        Request::Renameat2 { .. } => match (&targets.first, &targets.second) {
            (Some(old), Some(new)) => {
                foresee_moved(places, state, taken(places, old), taken(places, new))
            }
            _ => nothing(),
        },
        Request::Fchmodat { .. } => match &targets.first {
            Some(target) => foresee_found_mode(places, state, target.found),
            None => nothing(),
        },
        Request::Fchmod { fd, .. } => foresee_open_mode(places, state, pid, *fd),
        _ => nothing(),
    }
}

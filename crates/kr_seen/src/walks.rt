//! Where the paths of a call lead: each from its base, in the way that its call looks it up.
ghost use Rattle.std.specs.Prelude.{◌≡◌, ℕ, List, Some};
ghost use Rattle.std.specs.Option.{option_map};
ghost use Rattle.kr_ops.specs.kr_calls.PathTable.{path_use};
ghost use Rattle.kr_ops.specs.kr_view.View.{Row};
ghost use Rattle.kr_ops.specs.kr_model.Applied.{cwd_of};
ghost use Rattle.kr_ops.specs.kr_model.Asking.{descriptor_number, is_working_directory};
ghost use Rattle.kr_ops.specs.kr_model.Walks.{base_of, place_of_descriptor, target_at, targets_of};
ghost use Rattle.kr_ops.specs.Meaning.{meaning};
ghost use Rattle.kr_ops.specs.Sound.{IsLawfulFor, IsSound, IsSoundFor};
ghost use Rattle.kr_seen.specs.Numbered.{state_numbered};
ghost use Rattle.kr_seen.specs.CallWalks.{call_reach, path_reach, AreTargets, IsBase, IsReachedTo, IsTarget};

use crate::view::procs;
use kr_ops::State;
use kr_ops::below::{PathArg, Place, Places, Reach, Request, Target, WalkFault, What, path_of};
use kr_ops::laws::lawful_states_are_sound;
use kr_walk::below::{AT_FDCWD, Errno, components};
use kr_walk::resolve;
use std::alloc::Global;

/// Where the paths of a call lead; `None` of a path that the call hasn't, or that is empty and stands for a descriptor.
#[derive(Drop)]
pub struct Targets<M> {
    pub first: Option<Target<M>>,
    pub second: Option<Target<M>>,
}

/// Where the paths of a call of a living process lead, or the error of the first that fails: EBADF and ENOTDIR of its descriptor,
/// and then that of its walk. What the walks reach is added to `reach`, also where this answers an error; after NoMemory a part of it.
pub fn walk_paths<P: Places, const M: u8>(
    alloc: Global,
    places: &P,
    state: &State<P::Mount, M>,
    pid: u32,
    request: &Request,
    reach: &mut Reach,
) -> Result<Targets<P::Mount>, WalkFault>
    requires { IsLawfulFor P.number (P.mounts places.now) pid state.now }
    ensures answer { AreTargets P.number (targets_of (P.mounts places.now) pid (state_numbered P.number (meaning state.now)) request.now) result }
    ensures reach { IsReachedTo (call_reach (P.mounts places.now) pid (state_numbered P.number (meaning state.now)) request.now reach.old) reach.old reach.new result }
{
    let first = target_of(alloc, places, state, pid, path_of(request, 0), reach)?;
    let second = target_of(alloc, places, state, pid, path_of(request, 1), reach)?;
    Ok(Targets { first, second })
}

/// Where a path of a call leads.
fn target_of<P: Places, const M: u8>(
    alloc: Global,
    places: &P,
    state: &State<P::Mount, M>,
    pid: u32,
    path: Option<PathArg<'_>>,
    reach: &mut Reach,
) -> Result<Option<Target<P::Mount>>, WalkFault>
    requires { IsLawfulFor P.number (P.mounts places.now) pid state.now }
    ensures answer { IsTarget P.number (target_at (P.mounts places.now) pid (state_numbered P.number (meaning state.now)) (option_map path_use path.entry)) result }
    ensures reach { IsReachedTo (path_reach (P.mounts places.now) pid (state_numbered P.number (meaning state.now)) (option_map path_use path.entry) reach.old) reach.old reach.new result }
{
    let Some(path) = path else {
        return Ok(None);
    };
    if path.text.is_empty() {
        return Ok(None);
    }
    lawful_states_are_sound::<P::Mount, M>();
    let base = match base_of(places, state, pid, path) {
        Ok(base) => base,
        Err(errno) => return Err(WalkFault::Err(errno)),
    };
    let root = places.root();
    let procs = procs(alloc, places, state, &root);
    let target = resolve(
        alloc,
        places,
        &procs,
        &state.tree,
        state.user,
        pid,
        base,
        path.text,
        path.mode,
        reach,
    )?;
    Ok(Some(target))
}

/// Where a path begins: an absolute one at the root whatever its descriptor is, another in the working directory or in the directory
/// that is open under its descriptor.
fn base_of<P: Places, const M: u8>(
    places: &P,
    state: &State<P::Mount, M>,
    pid: u32,
    path: PathArg<'_>,
) -> Result<Place<P::Mount>, Errno>
    requires { IsSoundFor pid state.now }
    ensures { IsBase P.number (base_of (P.mounts places.now) pid (state_numbered P.number (meaning state.now)) (path_use path.entry)) result }
{
    if components(path.text).absolute() {
        return Ok(places.root());
    }
    if is_working_directory(path.dirfd) {
        return Ok(cwd_of(state, pid));
    }
    match descriptor_number(path.dirfd) {
        Some(fd) => directory_of(state, pid, fd),
        None => Err(Errno::EBADF),
    }
}

/// Whether the working directory is meant in place of a descriptor.
fn is_working_directory(dirfd: i32) -> bool
    ensures { result ≡ is_working_directory dirfd }
{
    dirfd == AT_FDCWD
}

/// The number of a descriptor, `None` exactly where it is negative.
fn descriptor_number(dirfd: i32) -> Option<u32>
    ensures { result ≡ descriptor_number dirfd }
{
    match u32::try_from(dirfd) {
        Ok(fd) => Some(fd),
        Err(_) => None,
    }
}

/// The working directory of a living process.
fn cwd_of<T: Copy, const M: u8>(state: &State<T, M>, pid: u32) -> Place<T>
    requires { IsSoundFor pid state.now }
    ensures { cwd_of pid (meaning state.now) ≡ Some result }
{
    match state.index_of(pid) {
        Some(k) => state.living[k].cwd,
        None => unreachable!(),
    }
}

/// The directory that is open under a descriptor: EBADF, ENOTDIR.
fn directory_of<T: Copy, const M: u8>(
    state: &State<T, M>,
    pid: u32,
    fd: u32,
) -> Result<Place<T>, Errno>
    requires { IsSound state.now }
    ensures { (number : T → ℕ) (table : List Row) → IsBase number (place_of_descriptor table pid (state_numbered number (meaning state.now)) (Some fd)) result }
{
    let Some(opened) = state.opened(pid, fd) else {
        return Err(Errno::EBADF);
    };
    match (opened.what, opened.place) {
        (What::Dir, Some(place)) => Ok(place),
        _ => Err(Errno::ENOTDIR),
    }
}

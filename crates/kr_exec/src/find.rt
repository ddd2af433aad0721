//! Finding the file that execve(2) runs.
ghost use Rattle.std.specs.Prelude.{◌≡◌, true, IfOk};
ghost use Rattle.elf_read.specs.pr_base.declared.path.WalkMode.TheVariants.{Look};
ghost use Rattle.kr_walk.specs.kr_view.Answers.{IsAnswer, IsReached};
ghost use Rattle.kr_walk.specs.kr_view.Leads.{numbered};
ghost use Rattle.kr_walk.specs.kr_view.Walk.{surroundings};
ghost use Rattle.kr_exec.specs.Finding.{is_program, is_program_found, program_at, program_walk};

use elf_read::below::pr_base::{Errno, WalkMode};
use kr_walk::below::{Host, Place, Places, Procs, Reach, Right, Target, Tree, User, WalkFault};
use kr_walk::resolve;
use std::alloc::Global;

/// Where a path leads from a base, if that is a regular file that the user may execute, and else EACCES. A last link
/// is followed. What the walk reaches is added to `reach`, also where this answers an error; after NoMemory a
/// part of it.
pub fn find_exec<P: Places, Q: Procs<Mount = P::Mount>>(
    alloc: Global,
    places: &P,
    procs: &Q,
    tree: &Tree,
    user: User,
    caller: u32,
    base: Place<P::Mount>,
    path: &[u8],
    reach: &mut Reach,
) -> Result<Target<P::Mount>, WalkFault>
    ensures answer { let around = surroundings P.number (P.mounts places.now) tree.now user (Q.finds procs.now caller) (Q.leads procs.now caller) in
        IsAnswer P.number (program_at around (numbered P.number base) path.now) result }
    ensures program { IfOk result (λ target. is_program_found tree.now user target.found ≡ true) }
    ensures reach { let around = surroundings P.number (P.mounts places.now) tree.now user (Q.finds procs.now caller) (Q.leads procs.now caller) in
        IsReached around Look (program_walk around (numbered P.number base) path.now) reach.old reach.new result }
{
    let target = resolve(
        alloc,
        places,
        procs,
        tree,
        user,
        caller,
        base,
        path,
        WalkMode::Look,
        reach,
    )?;
    if is_program_found(tree, user, target.found) {
        Ok(target)
    } else {
        Err(WalkFault::Err(Errno::EACCES))
    }
}

/// Whether what a walk found is a regular file that the user may execute.
fn is_program_found<M: Copy>(tree: &Tree, user: User, found: Option<Place<M>>) -> bool
    ensures { result ≡ is_program_found tree.now user found }
{
    match found {
        Some(place) => is_program(tree, user, place.host),
        None => false,
    }
}

/// Whether an object is a regular file that the user may execute.
fn is_program(tree: &Tree, user: User, host: Host) -> bool
    ensures { result ≡ is_program tree.now user host }
{
    match host {
        Host::Node(ino) => tree.is_file(ino) && tree.may(user, ino, Right::Search),
        Host::Proc(..) => false,
    }
}

//! The working directory and the program of the first process, looked for before a process lives.
ghost use Rattle.std.specs.Prelude.{◌≡◌, ℕ, IfOk, OnOk, true, false};
ghost use Rattle.std.specs.Option.{option_and_then, option_map};
ghost use Rattle.kr_start.specs.pr_base.declared.path.WalkMode.TheVariants.{Look};
ghost use Rattle.kr_execve.specs.kr_exec.Answers.{plan_numbered, Answers};
ghost use Rattle.kr_execve.specs.kr_exec.Finding.{is_program};
ghost use Rattle.kr_execve.specs.Executing.{IsLoadable};
ghost use Rattle.kr_first.specs.Starting.{around, directory_at, directory_walk, if_directory, path_errno, plan_of, plan_reach};
ghost use Rattle.kr_execve.specs.kr_view.Component.{is_directory_at};
ghost use Rattle.kr_execve.specs.kr_view.Leads.{numbered};
ghost use Rattle.kr_execve.specs.kr_view.Reach.{reach_after};

use kr_execve::below::{
    ExecPlan, Lists, NoProcs, Places, Reach, WalkFault, find_exec, plan_exec, resolve,
};
use kr_start::below::{Errno, Host, NoMemory, Place, ProcAt, Tree, User, WalkMode, is_walked};
use std::alloc::Global;

/// The number of the first process, in whose name its walks are made.
const FIRST: u32 = 2;

/// The directory to which a path leads from the root before a process lives; `None` exactly where it leads to none. What the walk
/// reaches is added to `reach`; after want of memory a part of it.
pub fn directory_at<P: Places>(
    alloc: Global,
    places: &P,
    tree: &Tree,
    user: User,
    path: &[u8],
    reach: &mut Reach,
) -> Result<Option<Place<P::Mount>>, NoMemory>
    ensures place { IfOk result (λ place. option_map (numbered P.number) place ≡ directory_at (P.mounts places.now) tree.now user path.now) }
    ensures reach { OnOk result (reach.new ≡ reach_after (around (P.mounts places.now) tree.now user) Look (directory_walk (P.mounts places.now) tree.now user path.now) reach.old) }
{
    match resolve(
        alloc,
        places,
        &NoProcs::new(),
        tree,
        user,
        FIRST,
        places.root(),
        path,
        WalkMode::Look,
        reach,
    ) {
        Ok(target) => Ok(directory_found(tree, target.found)),
        Err(WalkFault::Err(_)) => Ok(None),
        Err(WalkFault::NoMemory) => Err(NoMemory),
    }
}

/// What was found, if it is a directory.
fn directory_found<M: Copy>(tree: &Tree, found: Option<Place<M>>) -> Option<Place<M>>
    ensures { (number : M → ℕ) → option_map (numbered number) result ≡ option_and_then (if_directory tree.now) (option_map (numbered number) found) }
{
    let place = found?;
    if is_directory(tree, place.host) {
        Some(place)
    } else {
        None
    }
}

/// Whether an object is a directory.
fn is_directory(tree: &Tree, host: Host) -> bool
    ensures { result ≡ is_directory_at tree.now host }
{
    match host {
        Host::Node(ino) => tree.is_directory(ino),
        Host::Proc(_, ProcAt::Dir(_) | ProcAt::FdDir(_)) => true,
        Host::Proc(_, _) => false,
    }
}

/// Why a path isn't walked: ENOENT of an empty one, and ENAMETOOLONG of another.
fn path_errno(path: &[u8]) -> Errno
    ensures { result ≡ path_errno path.now }
{
    if path.is_empty() {
        Errno::ENOENT
    } else {
        Errno::ENAMETOOLONG
    }
}

/// What comes of a path and of lists: ENOENT and ENAMETOOLONG of the path, the errors of its walk, EACCES where it leads to no
/// file that the user may execute, and then those of the lists, of scripts and of ELF files.
pub fn plan<P: Places>(
    alloc: Global,
    places: &P,
    tree: &Tree,
    user: User,
    base: Place<P::Mount>,
    path: &[u8],
    lists: Lists,
    reach: &mut Reach,
) -> Result<ExecPlan<P::Mount>, WalkFault>
    ensures answer { Answers (plan_numbered P.number) (plan_of (P.mounts places.now) tree.now user (numbered P.number base) path.now lists.args lists.env) result }
    ensures program { IfOk result (λ plan. is_program tree.now user plan.place.host ≡ true) }
    ensures loadable { IfOk result (λ plan. IsLoadable tree.now plan) }
    ensures reach { OnOk result (reach.new ≡ plan_reach (P.mounts places.now) tree.now user (numbered P.number base) path.now lists.args lists.env reach.old) }
{
    if !is_walked(path) {
        return Err(WalkFault::Err(path_errno(path)));
    }
    let procs = NoProcs::new();
    let found = find_exec(alloc, places, &procs, tree, user, FIRST, base, path, reach)?;
    plan_exec(
        alloc, places, &procs, tree, user, FIRST, base, found, path, lists, reach,
    )
}

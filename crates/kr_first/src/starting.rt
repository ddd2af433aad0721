//! The start of a run: its first process, and the state that begins with it.
ghost use Rattle.std.specs.Prelude.{◌≡◌, ◌<◌, ◌^◌, length, IfOk};
ghost use Rattle.kr_start.specs.law_allowed.Told.{SourcesAreNamed};
ghost use Rattle.kr_execve.specs.kr_perform.Calling.{Runs};
ghost use Rattle.kr_execve.specs.kr_exec.Answers.{Answers};
ghost use Rattle.kr_execve.specs.kr_exec.Lists.{at_least_one};
ghost use Rattle.kr_first.specs.Started.{state_of, HasSizedProcesses, IsStarted, LeadsToDirectory};
ghost use Rattle.kr_first.specs.Starting.{start_of, start_reach};
ghost use Rattle.kr_start.specs.law_allowed.Texts.{IsText};
ghost use Rattle.kr_start.specs.Beginning.{CanLast};
ghost use Rattle.kr_start.specs.Start.{HasNoHolds};
ghost use Rattle.kr_start.specs.kr_tree.Lawful.{AreBytes};
ghost use Rattle.kr_execve.specs.kr_view.View.{StandsIn};

use crate::finding::{directory_at, plan};
use crate::loading::image_of;
use kr_execve::below::{Lists, Places, Reach, WalkFault};
use kr_start::below::{Bytes, Errno, NoMemory, Room, State, Texts, Tree, User, trees_are_kept};
use kr_start::laws::starts_last;
use kr_start::{begin, idle};
use std::alloc::Global;

/// What is asked of a start.
#[derive(Drop)]
pub struct First {
    /// The path of the program; one that isn't absolute begins in the working directory.
    pub path: Bytes,
    /// The arguments, the first of which is the program's own name. Without any the program is given an empty one.
    pub args: Texts,
    pub env: Texts,
    /// The path of the working directory, which leads from the root to a directory.
    pub cwd: Bytes,
    /// What the program is told of itself: the real and the effective user, the real and the effective group.
    pub ids: [u32; 4],
    /// What the walks reached that were made for this start before.
    pub reach: Reach,
}

/// Why there is no first process.
#[derive(Clone, Copy)]
pub enum StartFault {
    /// The error of execve(2).
    Err(Errno),
    NoMemory,
}

/// A run that has begun: the state with its first process, and what the walks of the start reached.
#[derive(Drop)]
pub struct Started<T, const M: u8> {
    pub state: State<T, M>,
    pub reach: Reach,
}

/// Starts a run over a tree that nothing holds and in which the view's mounts stand: each source of a mount is held once, the console
/// has its input, and the first process is that of execve(2). So are the errors: ENOENT of an empty path and ENAMETOOLONG of one with
/// more than 4,095 bytes, those of the walk, EACCES, E2BIG of the lists, those of scripts and of ELF files, and ENOMEM last. The walks
/// are made before a process lives, so the process directory has no names in them.
pub fn start<P: Places, const M: u8>(
    alloc: Global,
    places: &P,
    tree: Tree,
    user: User,
    input: Bytes,
    first: First,
) -> Result<Started<P::Mount, M>, StartFault>
    requires sized { HasSizedProcesses P.Mount.row M.row }
    requires stands { StandsIn tree (P.mounts places.now) }
    requires few { length (P.mounts places.now) < 2 ^ 32 }
    requires free { HasNoHolds tree }
    requires lasts { CanLast tree user }
    requires named { SourcesAreNamed (P.mounts places.now) }
    requires text { IsText first.path }
    requires cwd { LeadsToDirectory (P.mounts places.now) tree user first.cwd }
    ensures answer { IsStarted P.number (start_of (P.mounts places.now) tree user input first) result }
    ensures reach { IfOk result (λ started. started.reach ≡ start_reach (P.mounts places.now) tree user first) }
    ensures runs { IfOk result (λ started. Runs P.number (P.mounts places.now) 0 started.state) }
{
    match run_first(alloc, places, tree, user, input, first) {
        Ok(started) => Ok(started),
        Err(WalkFault::Err(errno)) => Err(StartFault::Err(errno)),
        Err(WalkFault::NoMemory) => Err(StartFault::NoMemory),
    }
}

/// Starts a run as `start` tells it, with the error of a walk.
fn run_first<P: Places, const M: u8>(
    alloc: Global,
    places: &P,
    tree: Tree,
    user: User,
    input: Bytes,
    first: First,
) -> Result<Started<P::Mount, M>, WalkFault>
    requires sized { HasSizedProcesses P.Mount.row M.row }
    requires stands { StandsIn tree (P.mounts places.now) }
    requires few { length (P.mounts places.now) < 2 ^ 32 }
    requires free { HasNoHolds tree }
    requires lasts { CanLast tree user }
    requires named { SourcesAreNamed (P.mounts places.now) }
    requires text { IsText first.path }
    requires cwd { LeadsToDirectory (P.mounts places.now) tree user first.cwd }
    ensures answer { Answers (state_of P.number) (start_of (P.mounts places.now) tree user input first) result }
    ensures reach { IfOk result (λ started. started.reach ≡ start_reach (P.mounts places.now) tree user first) }
    ensures runs { IfOk result (λ started. Runs P.number (P.mounts places.now) 0 started.state) }
{
    let First {
        path,
        args,
        env,
        cwd,
        ids,
        reach,
    } = first;
    let mut reach = reach;
    trees_are_kept(&tree);
    are_bytes(path.as_slice());
    starts_last::<P::Mount>();
    let Some(base) = directory_at(alloc, places, &tree, user, cwd.as_slice(), &mut reach)? else {
        unreachable!();
    };
    let args = or_one_empty(alloc, args)?;
    let lists = Lists { args, env };
    let plan = plan(
        alloc,
        places,
        &tree,
        user,
        base,
        path.as_slice(),
        lists,
        &mut reach,
    )?;
    let mut room = Room::new();
    let image = image_of(alloc, &tree, &mut room, &plan, ids)?;
    let mut state = idle(alloc, places, tree, user, input);
    begin(
        alloc, &mut state, room, image, base, plan.place, plan.dir, plan.name,
    )?;
    Ok(Started { state, reach })
}

/// Arguments, or an empty one in place of none.
fn or_one_empty(alloc: Global, args: Texts) -> Result<Texts, NoMemory>
    ensures { IfOk result (λ more. more ≡ at_least_one args) }
{
    let mut more = args;
    if more.is_empty() {
        more.push(Bytes::new(alloc))?;
    }
    Ok(more)
}

/// That bytes are below 256, which a proof is told of a slice alone.
fn are_bytes(bytes: &[u8])
    ensures { AreBytes bytes.now }
{}

//! The start.
ghost use Rattle.std.specs.Prelude.{◌≡◌, ◌≢◌, IfOk};
ghost use Rattle.kr_core.specs.kr_first.Started.{LeadsToDirectory};
ghost use Rattle.kr_core.specs.law_allowed.Texts.{IsText};
ghost use Rattle.kr_core.specs.kr_mounts.Stored.{table_of};
ghost use Rattle.kr_core.specs.kr_start.Ready.{IsReady};
ghost use Rattle.pr_start.specs.Beginning.{Begins, BeginsUnmarked, HasTexts, Prepares, beginning};

use crate::command::choose;
use crate::directory::working_directory;
use kr_core::Kernel;
use kr_core::below::{First, Mounted, Reach, Rule, Stage, StartFault, roots_are_directories};
use pt_first::below::{Bytes, Errno, Launch, arguments, word_of};
use pt_tracer::below::Watch;
use std::alloc::Global;

/// Nothing was reached yet.
const NOWHERE: Reach = Reach {
    longest: 0,
    met_proc: false,
};

/// The first process as it is asked for: its working directory, and its program with its words. All walks to both count for the calm rules.
fn prepare(alloc: Global, stage: &Stage, launch: Launch) -> Result<First, StartFault>
    requires ready { IsReady stage.now.tree stage.now.user (table_of stage.now.places) }
    requires launch { HasTexts launch }
    ensures prepared { Prepares (table_of stage.now.places) stage.now.tree stage.now.user launch result }
    ensures text { IfOk result (λ first. IsText first.path) }
    ensures cwd { IfOk result (λ first. LeadsToDirectory (table_of stage.now.places) stage.now.tree stage.now.user first.cwd) }
{
    let Launch {
        command,
        env,
        cwd,
        ids,
    } = launch;
    let (uid, gid) = ids;
    let mut reach = NOWHERE;
    roots_are_directories();
    let Ok(directory) = working_directory(alloc, stage, cwd, &mut reach) else {
        return Err(StartFault::NoMemory);
    };
    let path = match choose(
        alloc,
        stage,
        directory.place,
        &env,
        word_of(&command),
        &mut reach,
    ) {
        Ok(Some(path)) => path,
        Ok(None) => return Err(StartFault::Err(Errno::ENOENT)),
        Err(_no_memory) => return Err(StartFault::NoMemory),
    };
    let Ok(args) = arguments(alloc, command) else {
        return Err(StartFault::NoMemory);
    };
    Ok(First {
        path,
        args,
        env,
        cwd: directory.path,
        ids: [uid, uid, gid, gid],
        reach,
    })
}

/// Starts a command over mounts, in the name of their tree's user, with its watcher. A command without a slash is the first program of that name in the directories
/// of PATH, ENOENT where there is none; else the errors are those of execve(2). All walks of the start count for the calm rules.
pub fn start(
    alloc: Global,
    stage: Stage,
    launch: Launch,
    input: Bytes,
    watch: Watch,
) -> Result<Kernel<Mounted, Watch, 1>, StartFault>
    requires ready { IsReady stage.tree stage.user (table_of stage.places) }
    requires launch { HasTexts launch }
    ensures begins { Begins (beginning (table_of stage.places) stage.tree stage.user watch launch input) result }
    ensures places { IfOk result (λ kernel. kernel.places ≡ stage.places) }
{
    match prepare(alloc, &stage, launch) {
        Ok(first) => {
            let user = stage.user;
            let Stage { tree, places, .. } = stage;
            Kernel::start(alloc, places, watch, tree, user, input, first)
        }
        Err(fault) => Err(fault),
    }
}

/// Starts it on a kernel that keeps no marks, and tells beside it the calm rule that the walks of the start broke.
pub fn start_unmarked(
    alloc: Global,
    stage: Stage,
    launch: Launch,
    input: Bytes,
    watch: Watch,
) -> Result<(Kernel<Mounted, Watch, 0>, Option<Rule>), StartFault>
    requires ready { IsReady stage.tree stage.user (table_of stage.places) }
    requires launch { HasTexts launch }
    ensures begins { BeginsUnmarked (beginning (table_of stage.places) stage.tree stage.user watch launch input) result }
    ensures places { IfOk result (λ started. started.0.places ≡ stage.places) }
{
    match prepare(alloc, &stage, launch) {
        Ok(first) => {
            let user = stage.user;
            let Stage { tree, places, .. } = stage;
            Kernel::start_judged(alloc, places, watch, tree, user, input, first)
        }
        Err(fault) => Err(fault),
    }
}

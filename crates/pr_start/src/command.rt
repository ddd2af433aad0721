//! The command, searched in the directories of PATH where its word has no slash.
ghost use Rattle.std.specs.Prelude.{◌≡◌, IfOk, OnOk, map};
ghost use Rattle.kr_core.specs.kr_mounts.Stored.{table_of};
ghost use Rattle.kr_core.specs.kr_view.Leads.{numbered};
ghost use Rattle.pr_start.specs.Command.{Chosen, chosen, is_there, program_reach, searched};
ghost use Rattle.pr_start.specs.Numbers.{number_of};

use kr_core::below::{MountNumber, NoProcs, Reach, Stage, WalkFault};
use pt_first::below::{
    Bytes, NoMemory, Place, Texts, candidate, directories, has_slash, is_walked, path_of,
};
use pt_tracer::below::find_exec;
use std::alloc::Global;

/// The number of the first process, in whose name its walks are made.
const FIRST: u32 = 2;

/// Whether a path leads from a directory to a program that the user may execute.
fn is_there(
    alloc: Global,
    stage: &Stage,
    base: Place<MountNumber>,
    path: &[u8],
    reach: &mut Reach,
) -> Result<bool, NoMemory>
    ensures there { IfOk result (λ there. there ≡ is_there (table_of stage.now.places) stage.now.tree stage.now.user (numbered number_of base) path.now) }
    ensures reach { OnOk result (reach.new ≡ program_reach (table_of stage.now.places) stage.now.tree stage.now.user (numbered number_of base) path.now reach.old) }
{
    if !is_walked(path) {
        return Ok(false);
    }
    let procs = NoProcs::new();
    match find_exec(
        alloc,
        &stage.places,
        &procs,
        &stage.tree,
        stage.user,
        FIRST,
        base,
        path,
        reach,
    ) {
        Ok(_target) => Ok(true),
        Err(WalkFault::Err(_)) => Ok(false),
        Err(WalkFault::NoMemory) => Err(NoMemory),
    }
}

/// The first candidate in some directories that is a program.
#[tactic(auto, unfolding(crate::specs::Command::searched))]
fn search(
    alloc: Global,
    stage: &Stage,
    base: Place<MountNumber>,
    word: &[u8],
    dirs: &[&[u8]],
    reach: &mut Reach,
) -> Result<Option<Bytes>, NoMemory>
    ensures { IfOk result (λ path. record { path = path; reach = reach.new } ≡ searched (table_of stage.now.places) stage.now.tree stage.now.user (numbered number_of base) word.now (map (λ dir. dir.now) dirs.now) reach.old) }
{
    let Some((dir, others)) = dirs.split_first() else {
        return Ok(None);
    };
    let path = candidate(alloc, dir, word)?;
    if is_there(alloc, stage, base, path.as_slice(), reach)? {
        return Ok(Some(path));
    }
    search(alloc, stage, base, word, others, reach)
}

/// The path of the program: the word as it is where it has a slash, and else the first candidate that is a program.
pub(crate) fn choose(
    alloc: Global,
    stage: &Stage,
    base: Place<MountNumber>,
    env: &Texts,
    word: &[u8],
    reach: &mut Reach,
) -> Result<Option<Bytes>, NoMemory>
    ensures { IfOk result (λ path. record { path = path; reach = reach.new } ≡ chosen (table_of stage.now.places) stage.now.tree stage.now.user (numbered number_of base) env.now word.now reach.old) }
{
    if has_slash(word) {
        return Ok(Some(Bytes::copy(alloc, word)?));
    }
    let dirs = directories(alloc, path_of(env))?;
    search(alloc, stage, base, word, dirs.as_slice(), reach)
}

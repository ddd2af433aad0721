//! The start.
ghost use Rattle.std.specs.Prelude.{◌≡◌, not, true, IfOk, OnErr, OnOk};
ghost use Rattle.kr_first.specs.pt_bind.Binding.{IsWritten, rows_of};
ghost use Rattle.pt_script.specs.pt_canon.Canon.{IsAnswer, IsWalkNoted, texts_by};
ghost use Rattle.pt_first.specs.FirstPeeks.{first_peeked};
ghost use Rattle.pt_first.specs.GuestStart.{IsBegun, IsBegunNoting, IsStartNoted, begun, guest_start, noting, start_unmet, tagged};
ghost use Rattle.pt_script.specs.pt_canon.Leaving.{OnlyPeeks};
ghost use Rattle.pt_script.specs.pt_canon.Remembering.{Agrees, WalksOn};

use crate::begun::Begun;
use crate::directory::working_directory;
use crate::launcher::Launcher;
use crate::peeks::FirstPeeks;
use kr_first::below::{Tree, User};
use kr_first::{First, StartFault};
use kr_hostview::below::Reach;
use pr_words::below::{Errno, NoMemory, Peeks, Texts};
use pr_words::{Launch, arguments, word_of};
use pt_script::Expanded;
use pt_script::below::{Table, Tags, WalkErr, Walker};
use std::alloc::Global;

/// The number of the first process.
const FIRST: u32 = 2;

/// Nothing was reached yet.
const NOWHERE: Reach = Reach {
    longest: 0,
    met_proc: false,
};

/// The first process of a launch, by what a kernel tells before a process lives, and its tags. A command without a slash is the first program
/// of that name in the directories of PATH, ENOENT where there is none; else the errors are those of execve(2) of a process in the
/// working directory. Where none begins, also for want of memory, no tag is set. What the walker remembers must agree with what the kernel tells;
/// it may remember other answers then, also where none begins, and agrees still.
pub fn first_by<K: Peeks>(
    alloc: Global,
    kernel: &mut K,
    walker: &mut Walker,
    tags: &mut Tags,
    launch: Launch,
) -> Result<First, StartFault>
    requires agrees { Agrees walker.old (K.peeked kernel.old) }
    ensures begins { IsBegun (guest_start (texts_by walker.old.table (K.peeked kernel.old) tags.old) launch) tags.old tags.new result }
    ensures walker { WalksOn (K.peeked kernel.old) walker.old walker.new }
    ensures noted { IsStartNoted (start_unmet (texts_by walker.old.table (K.peeked kernel.old) tags.old) launch (K.unmet kernel.old)) (K.unmet kernel.new) result }
    ensures kernel { OnlyPeeks K.peeked K.kept kernel.old kernel.new }
{
    match begin(alloc, kernel, walker, tags, launch) {
        Ok(begun) => match note(tags, &begun) {
            Ok(()) => Ok(begun.first),
            Err(_no_memory) => Err(StartFault::NoMemory),
        },
        Err(WalkErr::Err(errno)) => Err(StartFault::Err(errno)),
        Err(WalkErr::NoMemory) => Err(StartFault::NoMemory),
    }
}

/// The first process of a launch over a tree in which no process lives, in the name of a user, and its tags. The errors are those of
/// `first_by`, and where none begins no tag is set. So is what is asked of the walker, and what is left of it. What the process is handed as
/// reached tells whether a walk looked up a name in the process directory.
pub fn first(
    alloc: Global,
    walker: &mut Walker,
    tags: &mut Tags,
    tree: &Tree,
    user: User,
    launch: Launch,
) -> Result<First, StartFault>
    requires agrees { Agrees walker.old (first_peeked tree.now user) }
    ensures begins { let texts = texts_by walker.old.table (first_peeked tree.now user) tags.old in
        IsBegunNoting (not (start_unmet texts launch true)) (guest_start texts launch) tags.old tags.new result }
    ensures walker { WalksOn (first_peeked tree.now user) walker.old walker.new }
{
    let mut kernel = FirstPeeks::new(alloc, tree, user);
    let first = first_by(alloc, &mut kernel, walker, tags, launch)?;
    Ok(noting(!kernel.unmet(), first))
}

/// The first process, with whether the walks that found it met the process directory.
fn noting(met_proc: bool, first: First) -> First
    ensures { result ≡ noting met_proc first }
{
    let First {
        path,
        args,
        env,
        cwd,
        ids,
        reach,
    } = first;
    First {
        path,
        args,
        env,
        cwd,
        ids,
        reach: Reach {
            longest: reach.longest,
            met_proc,
        },
    }
}

/// Sets the tags of the first process. Where memory is wanting nothing changes.
fn note(tags: &mut Tags, begun: &Begun) -> Result<(), NoMemory>
    ensures ok { OnOk result (tags.new ≡ tagged tags.old begun.now) }
    ensures err { OnErr result (tags.new ≡ tags.old) }
{
    tags.begin(FIRST, begun.cwd, begun.exe)
}

/// What begins.
fn begin<K: Peeks>(
    alloc: Global,
    kernel: &mut K,
    walker: &mut Walker,
    tags: &Tags,
    launch: Launch,
) -> Result<Begun, WalkErr>
    requires agrees { Agrees walker.old (K.peeked kernel.old) }
    ensures answer { IsAnswer (guest_start (texts_by walker.old.table (K.peeked kernel.old) tags.now) launch) result }
    ensures walker { WalksOn (K.peeked kernel.old) walker.old walker.new }
    ensures noted { IsWalkNoted (start_unmet (texts_by walker.old.table (K.peeked kernel.old) tags.now) launch (K.unmet kernel.old)) (K.unmet kernel.new) result }
    ensures kernel { OnlyPeeks K.peeked K.kept kernel.old kernel.new }
{
    let Launch {
        command,
        env,
        cwd,
        ids,
    } = launch;
    let working = working_directory(alloc, kernel, walker, tags, cwd.as_slice())?;
    let working = working.as_slice();
    let launcher = Launcher {
        alloc,
        tags,
        working,
    };
    let Some(path) = launcher.choose(kernel, walker, &env, word_of(&command))? else {
        return Err(WalkErr::Err(Errno::ENOENT));
    };
    let args = arguments(alloc, command)?;
    let program = launcher.run_from(kernel, walker, args, &env, path.as_slice())?;
    let begun = begun(walker.table(), env, ids, working, program)?;
    Ok(begun)
}

/// What begins with a program in a working directory.
fn begun(
    table: &Table,
    env: Texts,
    ids: (u32, u32),
    working: &[u8],
    program: Expanded,
) -> Result<Begun, NoMemory>
    requires { IsWritten working.now }
    ensures { IfOk result (λ b. b ≡ begun (rows_of table.now) env ids working.now program) }
{
    let cwd = table.host_of(working)?;
    let (uid, gid) = ids;
    let first = First {
        path: program.host,
        args: program.args,
        env,
        cwd,
        ids: [uid, uid, gid, gid],
        reach: NOWHERE,
    };
    Ok(Begun {
        first,
        cwd: table.index_of(working),
        exe: program.index,
    })
}

//! The opening of a generated case: both machines begin on its parts, the watched one first.
ghost use Rattle.std.specs.Prelude.{◌≡◌, ◌≤◌, IfErr, IfOk};
ghost use Rattle.pr_start.specs.pr_words.Sound.{AreSound};
ghost use Rattle.pr_run.specs.kr_mounts.Standing.{texts_of};
ghost use Rattle.pr_run.specs.kr_mounts.Stored.{table_of};
ghost use Rattle.pr_start.specs.kr_start.Ready.{IsReady};
ghost use Rattle.pr_start.specs.pt_bind.Binding.{rows_of};
ghost use Rattle.pr_top.specs.Opening.{IsOfStart, IsReadyToRun, MountsAs, OpensFrom, StagesAs, WatchesAs, case_begun, case_staged, mounted_by, watched_by};

use crate::opening::{Kind, Opened, end_watched};
use pr_gen::below::{Bytes, Texts, User};
use pr_gen::{CaseParts, case};
use pr_run::Plan;
use pr_run::below::{Answer, BindFault, Mounted, Plain};
use pr_start::below::{Launch, Options, Stage, StartFault, settled};
use pr_start::{Kernel, Tracer, Watch, start, start_traced};
use std::alloc::Global;

/// The parts of a case: its tree, in which its bindings are settled, and its command.
fn staged(alloc: Global, number: u32) -> Result<(Stage, Launch), Answer>
    requires { number ≤ 65535 }
    ensures staged { StagesAs (case_staged number) result }
    ensures ready { IfOk result (λ r. IsReady r.0.tree r.0.user (table_of r.0.places)) }
    ensures texts { IfOk result (λ r. rows_of r.0.texts ≡ texts_of (table_of r.0.places)) }
    ensures kinds { IfErr result IsOfStart }
{
    let Ok(parts) = case(alloc, number) else {
        return Err(Answer::NoMemory);
    };
    let CaseParts {
        tree,
        user,
        root,
        binds,
        command,
    } = parts;
    let Ok(cwd) = Bytes::copy(alloc, b"/") else {
        return Err(Answer::NoMemory);
    };
    match settled(alloc, tree, user, root.as_slice(), binds.as_slice()) {
        Ok(stage) => {
            let launch = Launch {
                command,
                env: Texts::new(alloc),
                cwd,
                ids: (user.uid, user.gid),
            };
            Ok((stage, launch))
        }
        Err(BindFault::Bad { index, why }) => Err(Answer::BadBind { index, why }),
        Err(BindFault::NoMemory) => Err(Answer::NoMemory),
    }
}

/// Begins the watched machine, and tells the user of the case's tree.
fn begin_watched(alloc: Global, number: u32) -> Result<(User, Kernel<Plain, Tracer, 0>), Answer>
    requires { number ≤ 65535 }
    ensures begins { WatchesAs (watched_by (case_staged number)) result }
    ensures kinds { IfErr result IsOfStart }
{
    let (stage, launch) = staged(alloc, number)?;
    let user = stage.user;
    let input = Bytes::new(alloc);
    match start_traced(alloc, stage, launch, input, None) {
        Ok(kernel) => Ok((user, kernel)),
        Err(StartFault::Err(errno)) => Err(Answer::NoStart { errno }),
        Err(StartFault::NoMemory) => Err(Answer::NoMemory),
    }
}

/// Begins the kernel over mounts.
fn begin_mounted(alloc: Global, number: u32) -> Result<Kernel<Mounted, Watch, 1>, Answer>
    requires { number ≤ 65535 }
    ensures begins { MountsAs (mounted_by (case_staged number)) result }
    ensures kinds { IfErr result IsOfStart }
{
    let (stage, launch) = staged(alloc, number)?;
    let input = Bytes::new(alloc);
    match start(alloc, stage, launch, input, Watch::Nobody) {
        Ok(kernel) => Ok(kernel),
        Err(StartFault::Err(errno)) => Err(Answer::NoStart { errno }),
        Err(StartFault::NoMemory) => Err(Answer::NoMemory),
    }
}

/// Begins both machines on the case of a number, for the turns and by the schedule of the options.
pub(crate) fn begin_case(alloc: Global, number: u32, options: Options) -> Result<Opened, Answer>
    requires number { number ≤ 65535 }
    requires sound { AreSound options }
    ensures begun { OpensFrom (case_begun number options) result }
    ensures kinds { IfErr result IsOfStart }
    ensures ready { IfOk result (λ opened. IsReadyToRun opened) }
{
    let (user, watched) = begin_watched(alloc, number)?;
    let mounted = match begin_mounted(alloc, number) {
        Ok(mounted) => mounted,
        Err(answer) => {
            end_watched(watched);
            return Err(answer);
        }
    };
    let plan = Plan {
        turns: options.turns,
        schedule: options.schedule,
        calm: false,
        user,
    };
    let kind = Kind::Both {
        case: number,
        watched,
        mounted,
    };
    Ok(Opened { kind, plan })
}

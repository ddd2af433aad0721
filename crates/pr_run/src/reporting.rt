//! The report of a run.
ghost use Rattle.std.specs.Prelude.{◌≡◌, ◌≤◌, IfOk};
ghost use Rattle.pr_sources.specs.pr_io.Drawn.{received};
ghost use Rattle.kr_loose.specs.kr_core.Kernel.{HasNoTurn, machine};
ghost use Rattle.pr_sources.specs.kr_text.Canonical.{canonical};
ghost use Rattle.pr_run.specs.Report.{answer_of, calm_line, calm_told, report_of};
ghost use Rattle.pr_run.specs.Puts.{AnswersReport, PutsCalm, PutsListing, PutsReport, end_told};
ghost use Rattle.pr_run.specs.Slots.{IsPlan, run_of};

use crate::plan::Plan;
use crate::turns::{End, Stop, put_some, run_turns};
use kr_loose::below::{Kernel, Places};
use pr_sources::Answer;
use pr_sources::below::{Bytes, NoMemory, PutFault, Sink, write};
use pt_tracer::Graphed;
use std::alloc::Global;

/// The line that tells whether a run was calm, by the number of the rule that it broke first.
fn calm_line(alloc: Global, broken: Option<u8>) -> Result<Bytes, NoMemory>
    ensures { IfOk result (λ line. line ≡ calm_line broken) }
{
    let line = match broken {
        None => String::from_str(alloc, "calm: yes\n")?,
        Some(rule) => format!(in alloc; "calm: rule {rule}\n")?,
    };
    Ok(Bytes::from(line.into_bytes()))
}

/// Puts that line, where it is asked for.
fn put_calm<R: Sink>(
    alloc: Global,
    asked: bool,
    broken: Option<u8>,
    err: &mut R,
) -> Result<(), Stop>
    ensures put { PutsCalm (calm_told asked broken) (received R.Sink err.old err.new) result }
    ensures count { R.faults err.old ≤ R.faults err.new }
{
    if !asked {
        return Ok(());
    }
    let Ok(line) = calm_line(alloc, broken) else {
        return Err(Stop::NoMemory);
    };
    match put_some(err, line.as_slice()) {
        Ok(()) => Ok(()),
        Err(PutFault::Failed) => Err(Stop::Err),
        Err(PutFault::NoMemory) => Err(Stop::NoMemory),
    }
}

/// Puts the listing of the tree that a run left.
pub(crate) fn put_listing<P: Places, S: Graphed, L: Sink, const M: u8>(
    alloc: Global,
    kernel: &Kernel<P, S, M>,
    plan: &Plan,
    left: &mut L,
) -> Result<(), Stop>
    ensures put { PutsListing (canonical (machine P.number kernel.now).state.tree plan.now.user) (received L.Sink left.old left.new) result }
{
    let Ok(listing) = write(alloc, kernel.tree(), plan.user) else {
        return Err(Stop::NoMemory);
    };
    match put_some(left, listing.as_slice()) {
        Ok(()) => Ok(()),
        Err(PutFault::Failed) => Err(Stop::Left),
        Err(PutFault::NoMemory) => Err(Stop::NoMemory),
    }
}

/// The answer on how a run ended.
pub(crate) fn answer_of(end: End, status: u8) -> Answer
    ensures { result ≡ answer_of (end_told end) status }
{
    match end {
        End::Over => Answer::Ended { status },
        End::Deadlock => Answer::Deadlock,
        End::Spent => Answer::Spent,
    }
}

/// Makes the turns, and puts what they wrote, the line on calm where it is asked for, and the listing that is left.
fn put_report<P: Places, S: Graphed, O: Sink, R: Sink, L: Sink, const M: u8>(
    alloc: Global,
    kernel: &mut Kernel<P, S, M>,
    plan: &Plan,
    out: &mut O,
    err: &mut R,
    left: &mut L,
) -> Result<Answer, Stop>
    requires kernel { HasNoTurn kernel.old }
    requires plan { IsPlan plan.now }
    ensures { PutsReport (report_of plan.now (run_of S.part S.does P.mounts P.number plan.now kernel.old)) (received O.Sink out.old out.new) (received R.Sink err.old err.new) (received L.Sink left.old left.new) result }
{
    let end = run_turns(kernel, plan, out, err)?;
    put_calm(alloc, plan.calm, kernel.broken(), err)?;
    put_listing(alloc, kernel, plan, left)?;
    Ok(answer_of(end, kernel.status()))
}

/// Runs a kernel that has begun, and puts its report: the bytes of each turn before the next one is made, then the line on calm where it is
/// asked for, and last the canonical listing of the tree that is left. It ends early only where a sink fails or memory runs out.
pub fn report<P: Places, S: Graphed, O: Sink, R: Sink, L: Sink, const M: u8>(
    alloc: Global,
    kernel: &mut Kernel<P, S, M>,
    plan: &Plan,
    out: &mut O,
    err: &mut R,
    left: &mut L,
) -> Answer
    requires kernel { HasNoTurn kernel.old }
    requires plan { IsPlan plan.now }
    ensures { AnswersReport (report_of plan.now (run_of S.part S.does P.mounts P.number plan.now kernel.old)) (received O.Sink out.old out.new) (received R.Sink err.old err.new) (received L.Sink left.old left.new) result }
{
    match put_report(alloc, kernel, plan, out, err, left) {
        Ok(answer) => answer,
        Err(stop) => stop.answer(),
    }
}

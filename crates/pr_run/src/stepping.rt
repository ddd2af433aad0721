//! The report of a loose run: its steps, each with its bytes, whether they were quiet, and the listing that is left.
ghost use Rattle.std.specs.Prelude.{◌≡◌, ◌≤◌, ◌↔◌, IsTrue, OnOk};
ghost use Rattle.pr_sources.specs.pr_io.Drawn.{received};
ghost use Rattle.kr_loose.specs.kr_core.Kernel.{machine_by};
ghost use Rattle.kr_loose.specs.Quiet.{IsQuiet};
ghost use Rattle.pr_run.specs.Going.{Since};
ghost use Rattle.pr_run.specs.Puts.{PutsCalm, PutsRun};
ghost use Rattle.pr_run.specs.Slots.{IsPlan};
ghost use Rattle.pr_run.specs.Stepping.{AnswersLoosely, HasNoStep, PutsLoosely, StandsSince, TellsQuiet, loose_line, loose_ran, loose_report};

use crate::laws::parts_are_quiet;
use crate::plan::Plan;
use crate::reporting::{answer_of, put_listing};
use crate::turns::{End, Stop, put_some, run_slots};
use kr_loose::Loose;
use kr_loose::below::Places;
use pr_sources::Answer;
use pr_sources::below::{PutFault, Sink};
use pt_tracer::Graphed;
use std::alloc::Global;

/// Makes steps until no process lives, none is ready, or the stated number of steps was made, tested in this order, and puts the bytes of each.
fn run_steps<P: Places, S: Graphed, O: Sink, R: Sink, const M: u8>(
    loose: &mut Loose<P, S, M>,
    plan: &Plan,
    out: &mut O,
    err: &mut R,
) -> Result<End, Stop>
    requires first { HasNoStep S.asks (P.mounts loose.old.kernel.places) loose.old.kernel loose.old.judge }
    requires plan { IsPlan plan.now }
    ensures puts { PutsRun (loose_ran S.does M (P.mounts loose.old.kernel.places) plan.now (machine_by P.number S.part loose.old.kernel)).puts
        (loose_ran S.does M (P.mounts loose.old.kernel.places) plan.now (machine_by P.number S.part loose.old.kernel)).ending (received O.Sink out.old out.new) (received R.Sink err.old err.new) result }
    ensures left { OnOk result (StandsSince P.number S.part S.asks (P.mounts loose.old.kernel.places) loose.new.kernel loose.new.judge
        (loose.old.kernel.met, (loose_ran S.does M (P.mounts loose.old.kernel.places) plan.now (machine_by P.number S.part loose.old.kernel)).left)) }
    ensures places { OnOk result (loose.new.kernel.places ≡ loose.old.kernel.places) }
    ensures out_count { O.faults out.old ≤ O.faults out.new }
    ensures err_count { R.faults err.old ≤ R.faults err.new }
{
    run_slots(loose, plan, out, err)
}

/// Whether the steps so far are quiet, by a part of what the watcher keeps.
fn is_quiet<P: Places, S: Graphed, const M: u8>(loose: &Loose<P, S, M>) -> bool
    ensures { (x : Since S.Part) → StandsSince P.number S.part S.asks (P.mounts loose.now.kernel.places) loose.now.kernel loose.now.judge x
        → (IsTrue result ↔ IsQuiet S.asked M (P.mounts loose.now.kernel.places) x.0 x.1.steps) }
{
    parts_are_quiet::<S>();
    loose.quiet()
}

/// The line that tells whether a loose run was quiet.
fn loose_line(quiet: bool) -> &'static [u8]
    ensures { result.now ≡ loose_line quiet }
{
    if quiet {
        b"loose: quiet\n"
    } else {
        b"loose: not quiet\n"
    }
}

/// Puts that line.
fn put_line<R: Sink>(quiet: bool, err: &mut R) -> Result<(), Stop>
    ensures put { PutsCalm (loose_line quiet) (received R.Sink err.old err.new) result }
    ensures count { R.faults err.old ≤ R.faults err.new }
{
    match put_some(err, loose_line(quiet)) {
        Ok(()) => Ok(()),
        Err(PutFault::Failed) => Err(Stop::Err),
        Err(PutFault::NoMemory) => Err(Stop::NoMemory),
    }
}

/// Makes the steps, and puts what they wrote, the line on quiet, and the listing that is left.
fn put_loosely<P: Places, S: Graphed, O: Sink, R: Sink, L: Sink, const M: u8>(
    alloc: Global,
    loose: &mut Loose<P, S, M>,
    plan: &Plan,
    out: &mut O,
    err: &mut R,
    left: &mut L,
) -> Result<Answer, Stop>
    requires first { HasNoStep S.asks (P.mounts loose.old.kernel.places) loose.old.kernel loose.old.judge }
    requires plan { IsPlan plan.now }
    ensures { PutsLoosely (loose_report plan.now (loose_ran S.does M (P.mounts loose.old.kernel.places) plan.now (machine_by P.number S.part loose.old.kernel)))
        (TellsQuiet S.asked M (P.mounts loose.old.kernel.places) loose.old.kernel.met (loose_ran S.does M (P.mounts loose.old.kernel.places) plan.now (machine_by P.number S.part loose.old.kernel)))
        (received O.Sink out.old out.new) (received R.Sink err.old err.new) (received L.Sink left.old left.new) result }
{
    let end = run_steps(loose, plan, out, err)?;
    let quiet = is_quiet(loose);
    put_line(quiet, err)?;
    let kernel = loose.kernel();
    put_listing(alloc, kernel, plan, left)?;
    Ok(answer_of(end, kernel.status()))
}

/// Makes a loose run that has begun, and puts its report: the bytes of each step before the next one is made, then the line that tells whether
/// the steps were quiet, and last the canonical listing of the tree that is left. It ends early only where a sink fails or memory runs out.
pub fn report_loosely<P: Places, S: Graphed, O: Sink, R: Sink, L: Sink, const M: u8>(
    alloc: Global,
    loose: &mut Loose<P, S, M>,
    plan: &Plan,
    out: &mut O,
    err: &mut R,
    left: &mut L,
) -> Answer
    requires first { HasNoStep S.asks (P.mounts loose.old.kernel.places) loose.old.kernel loose.old.judge }
    requires plan { IsPlan plan.now }
    ensures { AnswersLoosely (loose_report plan.now (loose_ran S.does M (P.mounts loose.old.kernel.places) plan.now (machine_by P.number S.part loose.old.kernel)))
        (TellsQuiet S.asked M (P.mounts loose.old.kernel.places) loose.old.kernel.met (loose_ran S.does M (P.mounts loose.old.kernel.places) plan.now (machine_by P.number S.part loose.old.kernel)))
        (received O.Sink out.old out.new) (received R.Sink err.old err.new) (received L.Sink left.old left.new) result }
{
    match put_loosely(alloc, loose, plan, out, err, left) {
        Ok(answer) => answer,
        Err(stop) => stop.answer(),
    }
}

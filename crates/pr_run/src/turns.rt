//! The turns of a run, or its steps, each with its bytes.
ghost use Rattle.std.specs.Prelude.{◌≡◌, ◌≢◌, ◌<◌, ◌≤◌, ◌^◌, [], suc, true, OnOk, IsErrOf};
ghost use Rattle.pr_sources.specs.pr_io.Drawn.{received};
ghost use Rattle.pr_sources.specs.pr_io.Faults.{Rose};
ghost use Rattle.pr_sources.specs.pr_io.Moves.{Puts};
ghost use Rattle.kr_loose.specs.kr_core.Kernel.{HasNoTurn, machine, machine_by};
ghost use Rattle.kr_loose.specs.kr_turns.Run.{ending_of};
ghost use Rattle.pr_run.specs.Going.{or_spent, went_by};
ghost use Rattle.pr_run.specs.Puts.{GoesAndPuts, PutsRun, PutsTurn, end_told};
ghost use Rattle.pr_run.specs.Slots.{IsPlan, run_of};

use crate::going::Goes;
use crate::plan::Plan;
use kr_loose::below::{Kernel, Places, Turned};
use pr_sources::below::{PutFault, Sink, Slot};
use pr_sources::{Answer, Which};
use pt_tracer::Graphed;

/// Why a report stopped early: a sink failed, or memory ran out.
#[derive(Clone, Copy)]
pub enum Stop {
    Out,
    Err,
    Left,
    NoMemory,
}

impl Stop {
    ghost use Rattle.std.specs.Prelude.{◌≡◌};
    ghost use Rattle.pr_run.specs.Puts.{stop_answer};

    /// The answer that tells it.
    pub fn answer(self) -> Answer
        ensures { result ≡ stop_answer self }
    {
        match self {
            Stop::Out => Answer::WriteFault { which: Which::Out },
            Stop::Err => Answer::WriteFault { which: Which::Err },
            Stop::Left => Answer::WriteFault { which: Which::Left },
            Stop::NoMemory => Answer::NoMemory,
        }
    }
}

/// How a run ended.
#[derive(Clone, Copy, PartialEq)]
pub enum End {
    /// No process lives.
    Over,
    /// One lives, and none is ready.
    Deadlock,
    /// The stated number of turns was made.
    Spent,
}

/// Puts bytes to a sink, where there are some.
pub(crate) fn put_some<S: Sink>(sink: &mut S, bytes: &[u8]) -> Result<(), PutFault>
    ensures put { Puts (S.got sink.old) (S.got sink.new) result bytes.now }
    ensures cause { IsErrOf result PutFault.Failed → Rose (S.faults sink.old) (S.faults sink.new) × (bytes.now ≢ []) }
    ensures count { S.faults sink.old ≤ S.faults sink.new }
{
    if bytes.is_empty() {
        return Ok(());
    }
    sink.put(bytes)
}

/// Puts the bytes of a turn, and forgets them.
fn put_turn<G: Goes, O: Sink, R: Sink>(run: &mut G, out: &mut O, err: &mut R) -> Result<(), Stop>
    ensures put { PutsTurn (G.written run.old) (received O.Sink out.old out.new) (received R.Sink err.old err.new) result }
    ensures forgets { OnOk result ((x : G.Run) → G.stands_for run.old x → G.stands_for run.new ((G.going (G.fixed run.old)).forgets x)) }
    ensures whole { OnOk result (G.is_whole run.old → G.is_whole run.new) }
    ensures fixed { OnOk result (G.fixed run.new ≡ G.fixed run.old) }
    ensures made { OnOk result (G.made run.new ≡ G.made run.old) }
    ensures out_count { O.faults out.old ≤ O.faults out.new }
    ensures err_count { R.faults err.old ≤ R.faults err.new }
{
    match put_some(out, run.out()) {
        Ok(()) => {}
        Err(PutFault::Failed) => return Err(Stop::Out),
        Err(PutFault::NoMemory) => return Err(Stop::NoMemory),
    }
    match put_some(err, run.err()) {
        Ok(()) => {}
        Err(PutFault::Failed) => return Err(Stop::Err),
        Err(PutFault::NoMemory) => return Err(Stop::NoMemory),
    }
    run.clear_bytes();
    Ok(())
}

/// Goes on by a slot, where it can, and puts the bytes that were written. The end is told where it can't go on.
fn go_on<G: Goes, O: Sink, R: Sink>(
    run: &mut G,
    slot: Slot,
    out: &mut O,
    err: &mut R,
) -> Result<Turned, Stop>
    requires whole { G.is_whole run.old }
    requires fuel { 1 ≤ slot.fuel }
    requires few { G.made run.old < 2 ^ 31 }
    ensures puts { (x : G.Run) → G.stands_for run.old x → GoesAndPuts (G.going (G.fixed run.old)) slot x (G.stands_for run.new) (received O.Sink out.old out.new) (received R.Sink err.old err.new) result }
    ensures whole { OnOk result (G.is_whole run.new) }
    ensures fixed { OnOk result (G.fixed run.new ≡ G.fixed run.old) }
    ensures made { OnOk result (G.made run.new ≤ suc (G.made run.old)) }
    ensures out_count { O.faults out.old ≤ O.faults out.new }
    ensures err_count { R.faults err.old ≤ R.faults err.new }
{
    match run.go(slot) {
        Ok(Turned::Ran) => {}
        Ok(Turned::Deadlock) => return Ok(Turned::Deadlock),
        Ok(Turned::Over) => return Ok(Turned::Over),
        Err(_no_memory) => return Err(Stop::NoMemory),
    }
    put_turn(run, out, err)?;
    Ok(Turned::Ran)
}

/// How a run ends whose turns were made.
pub(crate) fn end_after<P: Places, S: Graphed, const M: u8>(kernel: &Kernel<P, S, M>) -> End
    requires { kernel.now.whole ≡ true }
    ensures { end_told result ≡ or_spent (ending_of (machine P.number kernel.now)) }
{
    if kernel.living() == 0 {
        return End::Over;
    }
    match kernel.ready(0) {
        Some(_pid) => End::Spent,
        None => End::Deadlock,
    }
}

/// Goes on slot by slot until it can't, which is tested first, or the stated number of slots was used, and puts the bytes of each.
pub(crate) fn run_slots<G: Goes, O: Sink, R: Sink>(
    run: &mut G,
    plan: &Plan,
    out: &mut O,
    err: &mut R,
) -> Result<End, Stop>
    requires whole { G.is_whole run.old }
    requires first { G.made run.old ≡ 0 }
    requires plan { IsPlan plan.now }
    ensures puts { (x : G.Run) → G.stands_for run.old x → PutsRun (went_by (G.going (G.fixed run.old)) plan.now x).puts (went_by (G.going (G.fixed run.old)) plan.now x).ending
        (received O.Sink out.old out.new) (received R.Sink err.old err.new) result }
    ensures fixed { OnOk result (G.fixed run.new ≡ G.fixed run.old) }
    ensures left { OnOk result ((x : G.Run) → G.stands_for run.old x → G.stands_for run.new (went_by (G.going (G.fixed run.old)) plan.now x).left) }
    ensures out_count { O.faults out.old ≤ O.faults out.new }
    ensures err_count { R.faults err.old ≤ R.faults err.new }
{
    for turn in 0..plan.turns {
        let slot = plan.slot(turn);
        match go_on(run, slot, out, err)? {
            Turned::Ran => {}
            Turned::Deadlock => return Ok(End::Deadlock),
            Turned::Over => return Ok(End::Over),
        }
    }
    Ok(run.end())
}

/// Makes turns until no process lives, none is ready, or the stated number of turns was made, tested in this order.
pub(crate) fn run_turns<P: Places, S: Graphed, O: Sink, R: Sink, const M: u8>(
    kernel: &mut Kernel<P, S, M>,
    plan: &Plan,
    out: &mut O,
    err: &mut R,
) -> Result<End, Stop>
    requires kernel { HasNoTurn kernel.old }
    requires plan { IsPlan plan.now }
    ensures puts { PutsRun (run_of S.part S.does P.mounts P.number plan.now kernel.old).puts (run_of S.part S.does P.mounts P.number plan.now kernel.old).ending
        (received O.Sink out.old out.new) (received R.Sink err.old err.new) result }
    ensures machine { OnOk result ((run_of S.part S.does P.mounts P.number plan.now kernel.old).machine ≡ machine_by P.number S.part kernel.new) }
    ensures out_count { O.faults out.old ≤ O.faults out.new }
    ensures err_count { R.faults err.old ≤ R.faults err.new }
{
    run_slots(kernel, plan, out, err)
}

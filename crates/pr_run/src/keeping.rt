//! A run whose bytes are kept, turn after turn, so that it can be compared with another.
ghost use Rattle.std.specs.Prelude.{◌≡◌, ◌≤◌, ◌<◌, ◌^◌, ◌↔◌, [], suc, length, IfOk, OnOk, IsTrue};
ghost use Rattle.kr_loose.specs.kr_core.Kernel.{HasNoTurn, machine, machine_by};
ghost use Rattle.pr_run.specs.Case.{outcome};
ghost use Rattle.pr_run.specs.Going.{went_by};
ghost use Rattle.pr_run.specs.Keeping.{GoesAndKeeps, IsKept, kept_told, put_told, puts_told};
ghost use Rattle.pr_run.specs.Puts.{end_told};
ghost use Rattle.pr_run.specs.Report.{outs};
ghost use Rattle.pr_run.specs.Slots.{IsPlan, run_of};

use crate::going::Goes;
use crate::plan::Plan;
use crate::turns::End;
use kr_loose::below::{Kernel, Places, Turned};
use pr_sources::below::{Bytes, NoMemory, Slot, Tree};
use pt_tracer::Graphed;
use std::alloc::Global;

/// The bytes that a turn put out.
#[derive(Drop)]
pub struct Written {
    pub out: Bytes,
    pub err: Bytes,
}

/// What is kept of a run: the bytes of each turn, how it ended, and the status.
#[derive(Drop)]
pub struct Kept {
    pub puts: Vec<Written>,
    pub end: End,
    pub status: u8,
}

/// Takes a copy of the bytes of a turn, and forgets them.
fn take_bytes<G: Goes>(alloc: Global, run: &mut G) -> Result<Written, NoMemory>
    ensures bytes { IfOk result (λ written. put_told written ≡ G.written run.old) }
    ensures forgets { OnOk result ((x : G.Run) → G.stands_for run.old x → G.stands_for run.new ((G.going (G.fixed run.old)).forgets x)) }
    ensures whole { OnOk result (G.is_whole run.old → G.is_whole run.new) }
    ensures fixed { OnOk result (G.fixed run.new ≡ G.fixed run.old) }
    ensures made { OnOk result (G.made run.new ≡ G.made run.old) }
{
    let out = Bytes::copy(alloc, run.out())?;
    let err = Bytes::copy(alloc, run.err())?;
    run.clear_bytes();
    Ok(Written { out, err })
}

/// Goes on by a slot, where it can, and keeps the bytes that were written behind those from before. The end is told where it can't go on.
fn keep_slot<G: Goes>(
    alloc: Global,
    run: &mut G,
    slot: Slot,
    puts: &mut Vec<Written>,
) -> Result<Turned, NoMemory>
    requires whole { G.is_whole run.old }
    requires fuel { 1 ≤ slot.fuel }
    requires few { G.made run.old < 2 ^ 31 }
    ensures keeps { IfOk result (λ turned. (x : G.Run) → G.stands_for run.old x → GoesAndKeeps (G.going (G.fixed run.old)) slot x (G.stands_for run.new) (puts_told puts.old.items) (puts_told puts.new.items) turned) }
    ensures whole { OnOk result (G.is_whole run.new) }
    ensures fixed { OnOk result (G.fixed run.new ≡ G.fixed run.old) }
    ensures made { OnOk result (G.made run.new ≤ suc (G.made run.old)) }
{
    match run.go(slot) {
        Ok(Turned::Ran) => {}
        Ok(Turned::Deadlock) => return Ok(Turned::Deadlock),
        Ok(Turned::Over) => return Ok(Turned::Over),
        Err(no_memory) => return Err(no_memory),
    }
    let written = take_bytes(alloc, run)?;
    puts.push(written)?;
    Ok(Turned::Ran)
}

/// Goes on slot by slot until it can't, which is tested first, or the stated number of slots was used, and keeps the bytes of each.
fn keep_slots<G: Goes>(
    alloc: Global,
    run: &mut G,
    plan: &Plan,
    puts: &mut Vec<Written>,
) -> Result<End, NoMemory>
    requires whole { G.is_whole run.old }
    requires first { G.made run.old ≡ 0 }
    requires plan { IsPlan plan.now }
    requires empty { puts.old.items ≡ [] }
    ensures { IfOk result (λ end. (x : G.Run) → G.stands_for run.old x → IsKept (went_by (G.going (G.fixed run.old)) plan.now x) (G.stands_for run.new) (puts_told puts.new.items) (end_told end)) }
{
    for turn in 0..plan.turns {
        let slot = plan.slot(turn);
        match keep_slot(alloc, run, slot, puts)? {
            Turned::Ran => {}
            Turned::Deadlock => return Ok(End::Deadlock),
            Turned::Over => return Ok(End::Over),
        }
    }
    Ok(run.end())
}

/// Makes turns until no process lives, none is ready, or the stated number of turns was made, tested in this order, and keeps their bytes.
fn keep_turns<P: Places, S: Graphed, const M: u8>(
    alloc: Global,
    kernel: &mut Kernel<P, S, M>,
    plan: &Plan,
    puts: &mut Vec<Written>,
) -> Result<End, NoMemory>
    requires kernel { HasNoTurn kernel.old }
    requires plan { IsPlan plan.now }
    requires empty { puts.old.items ≡ [] }
    ensures end { IfOk result (λ end. (run_of S.part S.does P.mounts P.number plan.now kernel.old).ending ≡ end_told end) }
    ensures puts { OnOk result ((run_of S.part S.does P.mounts P.number plan.now kernel.old).puts ≡ puts_told puts.new.items) }
    ensures machine { OnOk result ((run_of S.part S.does P.mounts P.number plan.now kernel.old).machine ≡ machine_by P.number S.part kernel.new) }
{
    keep_slots(alloc, kernel, plan, puts)
}

/// Runs a kernel that has begun to its end, and keeps what became of it; the tree stays in the kernel.
pub fn keep<P: Places, S: Graphed, const M: u8>(
    alloc: Global,
    kernel: &mut Kernel<P, S, M>,
    plan: &Plan,
) -> Result<Kept, NoMemory>
    requires kernel { HasNoTurn kernel.old }
    requires plan { IsPlan plan.now }
    ensures kept { IfOk result (λ kept. kept_told kept (machine P.number kernel.new).state.tree ≡ outcome (run_of S.part S.does P.mounts P.number plan.now kernel.old)) }
    ensures machine { OnOk result ((run_of S.part S.does P.mounts P.number plan.now kernel.old).machine ≡ machine_by P.number S.part kernel.new) }
{
    let mut puts = Vec::new(alloc);
    let end = keep_turns(alloc, kernel, plan, &mut puts)?;
    let status = kernel.status();
    Ok(Kept { puts, end, status })
}

/// Whether two turns put out the same bytes.
fn same_bytes(a: &Written, b: &Written) -> bool
    ensures { IsTrue result ↔ (put_told a.now ≡ put_told b.now) }
{
    a.out.as_slice() == b.out.as_slice() && a.err.as_slice() == b.err.as_slice()
}

/// Whether the turns of two runs put out the same bytes, turn for turn.
fn same_puts(a: &[Written], b: &[Written]) -> bool
    ensures { IsTrue result ↔ (puts_told a.now ≡ puts_told b.now) }
{
    if a.len() != b.len() {
        return false;
    }
    for k in 0..a.len() {
        if !same_bytes(&a[k], &b[k]) {
            return false;
        }
    }
    true
}

/// Whether two runs came to the same outcome: by what is kept of them, and by the trees that they left.
pub(crate) fn same(a: &Kept, a_tree: &Tree, b: &Kept, b_tree: &Tree) -> bool
    ensures { IsTrue result ↔ (kept_told a.now a_tree.now ≡ kept_told b.now b_tree.now) }
{
    same_puts(a.puts.as_slice(), b.puts.as_slice())
        && a.end == b.end
        && a.status == b.status
        && a_tree.same(b_tree)
}

/// How many bytes of output some turns put.
pub(crate) fn output(puts: &[Written]) -> u128
    ensures { result ≡ length (outs (puts_told puts.now)) }
{
    let mut bytes = 0;
    for written in puts {
        bytes += written.out.len() as u128;
    }
    bytes
}

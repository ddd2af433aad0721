//! A walker that remembers nothing as long as a process stands at a call that can alter the tree.
ghost use Rattle.std.specs.Prelude.{◌≡◌, [], IfOk, OnOk, false};
ghost use Rattle.law_steady.specs.pt_bind.Binding.{rows_of};
ghost use Rattle.pt_faker.specs.Stopping.{OnlyEdits, lent};
ghost use Rattle.pt_faker.specs.kr_stops.Remembering.{AgreesAt, FreesCaller, KeepsAllFree, KeepsOthersFree, StillAgrees};
ghost use Rattle.pt_tracer.specs.Agreeing.{AgreesWith, WalksAt};
ghost use Rattle.pt_tracer.specs.Pausing.{IsPausedFor, is_pausing};
ghost use Rattle.pt_tracer.specs.Planning.{planned, planned_unmet};

use crate::altering::can_alter_shape;
use crate::plan::Plan;
use crate::planning::Planner;
use pt_faker::Tracee;
use pt_faker::below::NoMemory;
use pt_results::below::Walker;
use std::alloc::Global;
use std::collections::BTreeSet;
use std::marker::Model;

/// A walker, and the processes that stand at calls that can alter the tree, for each of which it pauses.
#[derive(Drop)]
pub(crate) struct PausingWalker {
    walker: Walker,
    pids: BTreeSet<u32>,
}

impl Model for PausingWalker {
    ghost use Rattle.pt_tracer.specs.Pausing.{IsPausedBy, Pausing};

    ghost Value = { Pausing };

    ghost view = { λ p. record { walker = p.walker; pids = p.pids.keys } };

    ghost invariant = { λ p. IsPausedBy p.walker p.pids.keys };
}

impl PausingWalker {
    /// No process pauses it. It takes no memory.
    pub(crate) fn new(alloc: Global, walker: Walker) -> PausingWalker
        requires unpaused { walker.pauses ≡ 0 }
        ensures { result ≡ record { walker = walker; pids = [] } }
    {
        PausingWalker {
            walker,
            pids: BTreeSet::new(alloc),
        }
    }

    /// What becomes of a call, by walks of this walker. After want of memory the process may only be dropped.
    pub(crate) fn plan<T: Tracee>(
        &mut self,
        planner: &Planner<'_>,
        t: &mut T,
    ) -> Result<Plan, NoMemory>
        requires agrees { AgreesAt AgreesWith self.old.walker (T.stopped t.old) }
        ensures plan { IfOk result (λ plan. (plan, T.stopped t.new) ≡ planned (rows_of self.old.walker.table) planner.now.tags.now (T.stopped t.old) planner.now.request.now) }
        ensures walks { WalksAt (T.stopped t.old) self.old.walker self.new.walker }
        ensures pids { self.new.pids ≡ self.old.pids }
        ensures noted { OnOk result (T.unmet t.new ≡ planned_unmet (rows_of self.old.walker.table) planner.now.tags.now (T.stopped t.old) planner.now.request.now (T.unmet t.old)) }
        ensures edits { OnlyEdits T.stopped (lent T.around) t.old t.new }
    {
        planner.plan(t, &mut self.walker)
    }

    /// Pauses for a process that is about to make a call which can alter the tree.
    pub(crate) fn pause_at<T: Tracee>(&mut self, t: &T) -> Result<(), NoMemory>
        requires agrees { AgreesAt AgreesWith self.old.walker (T.stopped t.now) }
        ensures table { OnOk result (self.new.walker.table ≡ self.old.walker.table) }
        ensures agrees { OnOk result (AgreesAt AgreesWith self.new.walker (T.stopped t.now)) }
        ensures frees { OnOk result (FreesCaller IsPausedFor (T.stopped t.now) self.new) }
        ensures others { OnOk result (KeepsAllFree IsPausedFor self.old self.new) }
    {
        let pid = t.pid();
        if !can_alter_shape(t) {
            return Ok(());
        }
        self.pause_for(pid)
    }

    /// Pauses for a process, once.
    fn pause_for(&mut self, pid: u32) -> Result<(), NoMemory>
        ensures table { OnOk result (self.new.walker.table ≡ self.old.walker.table) }
        ensures paused { OnOk result (IsPausedFor self.new pid) }
        ensures others { OnOk result (KeepsAllFree IsPausedFor self.old self.new) }
    {
        // For the proof alone: they are fewer than 2^63.
        let _count = self.pids.len();
        let is_new = self.pids.insert(pid)?;
        if !is_new {
            return Ok(());
        }
        self.walker.pause();
        Ok(())
    }

    /// Ends the pause for a process, if there is one.
    pub(crate) fn resume_for(&mut self, pid: u32)
        ensures table { self.new.walker.table ≡ self.old.walker.table }
        ensures agrees { StillAgrees AgreesWith self.old.walker self.new.walker }
        ensures ended { is_pausing pid self.new.pids ≡ false }
        ensures others { KeepsOthersFree IsPausedFor pid self.old self.new }
    {
        let paused = self.pids.remove(&pid);
        if !paused {
            return;
        }
        self.walker.resume();
    }
}

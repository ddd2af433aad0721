//! A loose run of a kernel.
ghost use Rattle.std.specs.Prelude.{◌≡◌, ◌≤◌, ◌<◌, ◌^◌, ◌↔◌, [], ℕ, suc, Bool, List, true, IfOk, IsSome, IsTrue, OnOk};
ghost use Rattle.kr_core.specs.Kernel.{Clears, HasNoTurn, machine, phase_of};
ghost use Rattle.kr_core.specs.kr_turns.kr_model.State.{process};
ghost use Rattle.kr_core.specs.kr_turns.kr_stops.Watching.{watching};
ghost use Rattle.kr_loose.specs.Behind.{IsBehind, counts_in, kept_of};
ghost use Rattle.kr_loose.specs.Going.{HasGone, Steps};
ghost use Rattle.kr_loose.specs.LooseRun.{Step};
ghost use Rattle.kr_loose.specs.Quiet.{IsQuiet};

use crate::judge::{Counts, Judge, unless};
use kr_core::below::{NoMemory, Places, Stops};
use kr_core::{Kernel, Phase, Turned};
use std::alloc::Global;

/// A kernel that goes by single steps, between which its other processes may go on.
#[derive(Drop)]
pub struct Loose<P: Places, S: Stops, const MARKED: u8> {
    kernel: Kernel<P, S, MARKED>,
    judge: Judge,
}

impl<P: Places, S: Stops, const MARKED: u8> Loose<P, S, MARKED> {
    /// Over a kernel that made no turn, and all of whose processes run.
    pub fn new(alloc: Global, kernel: Kernel<P, S, MARKED>) -> Loose<P, S, MARKED>
        requires { HasNoTurn kernel }
        ensures kernel { result.kernel ≡ kernel }
        ensures behind { IsBehind S.asks MARKED (P.mounts kernel.places) kernel.met [] (kept_of result.kernel result.judge) }
    {
        let judge = Judge::new(alloc);
        Loose { kernel, judge }
    }

    /// A step: of the ready processes in order of their numbers, that at the place `pick`, modulo their number, does instructions until `fuel`
    /// of them are done, it comes to a call, or it dies; or it makes the first stop of its call, the call itself, or its second stop. After want
    /// of memory it may only be dropped.
    pub fn step(&mut self, pick: u32, fuel: u32) -> Result<Turned, NoMemory>
        requires whole { self.old.kernel.whole ≡ true }
        requires fuel { 1 ≤ fuel }
        requires few { self.old.kernel.calls < 2 ^ 31 }
        ensures steps { IfOk result (λ turned. Steps P.number (watching S.enters S.exits S.bears S.forgets) S.asks (P.mounts self.old.kernel.places) pick fuel self.old.kernel self.new.kernel self.old.judge self.new.judge turned) }
        ensures whole { OnOk result (self.new.kernel.whole ≡ true) }
        ensures calls { OnOk result (self.new.kernel.calls ≤ suc self.old.kernel.calls) }
    {
        if self.kernel.living() == 0 {
            return Ok(Turned::Over);
        }
        let Some(pid) = self.kernel.picked(pick) else {
            return Ok(Turned::Deadlock);
        };
        self.go(pid, fuel)?;
        Ok(Turned::Ran)
    }

    /// Whatever a living process does next.
    fn go(&mut self, pid: u32, fuel: u32) -> Result<(), NoMemory>
        requires whole { self.old.kernel.whole ≡ true }
        requires fuel { 1 ≤ fuel }
        requires few { self.old.kernel.calls < 2 ^ 31 }
        requires lives { IsSome (process pid (machine P.number self.old.kernel).state) }
        ensures goes { OnOk result (HasGone P.number (watching S.enters S.exits S.bears S.forgets) S.asks (P.mounts self.old.kernel.places) fuel pid self.old.kernel self.new.kernel self.old.judge self.new.judge) }
        ensures whole { OnOk result (self.new.kernel.whole ≡ true) }
    {
        let Some(next) = self.kernel.phase(pid) else {
            unreachable!();
        };
        match next {
            Phase::Running => self.run(pid, fuel),
            Phase::AtCall => self.enter(pid),
            Phase::Entered => self.call(pid),
            Phase::Done => self.leave(pid),
        }
    }

    /// Instructions of a process that runs.
    fn run(&mut self, pid: u32, fuel: u32) -> Result<(), NoMemory>
        requires whole { self.old.kernel.whole ≡ true }
        requires fuel { 1 ≤ fuel }
        requires phase { phase_of P.number pid self.old.kernel ≡ Some Phase.Running }
        ensures goes { OnOk result (HasGone P.number (watching S.enters S.exits S.bears S.forgets) S.asks (P.mounts self.old.kernel.places) fuel pid self.old.kernel self.new.kernel self.old.judge self.new.judge) }
        ensures whole { OnOk result (self.new.kernel.whole ≡ true) }
    {
        let _done = self.kernel.run_pid(pid, fuel)?;
        Ok(())
    }

    /// The first stop of the call at which a process stands. What is counted then is what its call has to find.
    fn enter(&mut self, pid: u32) -> Result<(), NoMemory>
        requires whole { self.old.kernel.whole ≡ true }
        requires phase { phase_of P.number pid self.old.kernel ≡ Some Phase.AtCall }
        ensures goes { OnOk result ((fuel : ℕ) → HasGone P.number (watching S.enters S.exits S.bears S.forgets) S.asks (P.mounts self.old.kernel.places) fuel pid self.old.kernel self.new.kernel self.old.judge self.new.judge) }
        ensures whole { OnOk result (self.new.kernel.whole ≡ true) }
    {
        self.kernel.enter(pid)?;
        let now = counts_in(&self.kernel);
        self.judge.begin(pid, now)?;
        Ok(())
    }

    /// The call of a process behind its first stop, which may wait. It is judged by what is counted before it.
    fn call(&mut self, pid: u32) -> Result<(), NoMemory>
        requires whole { self.old.kernel.whole ≡ true }
        requires few { self.old.kernel.calls < 2 ^ 31 }
        requires phase { phase_of P.number pid self.old.kernel ≡ Some Phase.Entered }
        ensures goes { OnOk result ((fuel : ℕ) → HasGone P.number (watching S.enters S.exits S.bears S.forgets) S.asks (P.mounts self.old.kernel.places) fuel pid self.old.kernel self.new.kernel self.old.judge self.new.judge) }
        ensures whole { OnOk result (self.new.kernel.whole ≡ true) }
    {
        let exec = self.kernel.last_is_exec(pid);
        let before = counts_in(&self.kernel);
        self.judge.judge(pid, exec, before);
        let done = self.kernel.plain(pid)?;
        let after = counts_in(&self.kernel);
        self.judge.go_on(pid, done, after)?;
        Ok(())
    }

    /// The second stop of a call that is done.
    fn leave(&mut self, pid: u32) -> Result<(), NoMemory>
        requires whole { self.old.kernel.whole ≡ true }
        requires phase { phase_of P.number pid self.old.kernel ≡ Some Phase.Done }
        ensures goes { OnOk result ((fuel : ℕ) → HasGone P.number (watching S.enters S.exits S.bears S.forgets) S.asks (P.mounts self.old.kernel.places) fuel pid self.old.kernel self.new.kernel self.old.judge self.new.judge) }
        ensures whole { OnOk result (self.new.kernel.whole ≡ true) }
    {
        self.kernel.leave(pid)?;
        Ok(())
    }

    /// Whether the steps so far are quiet.
    pub fn quiet(&self) -> bool
        ensures { (met_at_start : Bool) (steps : List (Step S)) → IsBehind S.asks MARKED (P.mounts self.now.kernel.places) met_at_start steps (kept_of self.now.kernel self.now.judge)
            → (IsTrue result ↔ IsQuiet S.asks MARKED (P.mounts self.now.kernel.places) met_at_start steps) }
    {
        unless(self.judge.undisturbed, self.kernel.met_proc())
    }

    /// The kernel.
    pub fn kernel(&self) -> &Kernel<P, S, MARKED>
        ensures { result.now ≡ self.now.kernel }
    {
        &self.kernel
    }

    /// Forgets the bytes that were put out.
    pub fn clear_bytes(&mut self)
        ensures clears { Clears P.number self.old.kernel self.new.kernel }
        ensures behind { (met_at_start : Bool) (steps : List (Step S)) → IsBehind S.asks MARKED (P.mounts self.old.kernel.places) met_at_start steps (kept_of self.old.kernel self.old.judge)
            → IsBehind S.asks MARKED (P.mounts self.new.kernel.places) met_at_start steps (kept_of self.new.kernel self.new.judge) }
    {
        self.kernel.clear_bytes();
    }
}

/// How often a kernel's tree was altered.
fn counts_in<P: Places, S: Stops, const MARKED: u8>(kernel: &Kernel<P, S, MARKED>) -> Counts
    ensures { result ≡ counts_in kernel.now }
{
    Counts {
        shape: kernel.shape_changes(),
        bytes: kernel.byte_changes(),
    }
}

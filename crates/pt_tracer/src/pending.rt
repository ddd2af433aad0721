//! What is kept of the calls of all processes between their two stops.
ghost use Rattle.std.specs.Prelude.{◌≡◌, OnOk};
ghost use Rattle.std.specs.FinMap as map;

use crate::plan::Led;
use crate::registers::Arguments;
use pt_faker::below::NoMemory;
use pt_results::below::Request;
use std::alloc::Global;
use std::collections::BTreeMap;
use std::marker::Model;

/// A call whose second stop is still to come.
#[derive(Drop)]
pub struct Pending {
    /// What the caller passed.
    pub passed: Arguments,
    pub request: Request,
    /// Where its first path leads.
    pub led: Led,
    /// The answer, where the kernel was shown no call.
    pub answer: Option<i64>,
}

/// The calls of all processes that stand between the two stops of one. After want of memory it may only be dropped.
#[derive(Drop)]
pub(crate) struct Calls {
    kept: BTreeMap<u32, Pending>,
}

impl Model for Calls {
    ghost use Rattle.std.specs.Coded.{codes, coded_ℕ};
    ghost use Rattle.std.specs.FinMap as map;
    ghost use Rattle.std.specs.Ordering.{nat_cmp};
    ghost use Rattle.pt_tracer.specs.declared.pending.Pending.{Pending};

    ghost Value = { map.FinMap nat_cmp Pending };

    ghost coded = { map.code coded_ℕ (Prim.hlevel codes) };

    ghost view = { λ d. map.from_entries d.kept.entries };
}

impl Calls {
    /// No process stands at a call. It takes no memory.
    pub(crate) fn new(alloc: Global) -> Calls
        ensures { result ≡ map.empty }
    {
        Calls {
            kept: BTreeMap::new(alloc),
        }
    }

    /// Keeps the call of a process in place of what was kept of it.
    pub(crate) fn keep(&mut self, pid: u32, pending: Pending) -> Result<(), NoMemory>
        ensures { OnOk result (self.new ≡ map.insert self.old pid pending) }
    {
        self.kept.insert(pid, pending)?;
        Ok(())
    }

    /// The call that is kept of a process; then none is any more.
    pub(crate) fn take(&mut self, pid: u32) -> Option<Pending>
        ensures call { result ≡ map.get self.old pid }
        ensures taken { self.new ≡ map.remove self.old pid }
    {
        self.kept.remove(&pid)
    }

    /// Forgets the call that is kept of a process.
    pub(crate) fn forget(&mut self, pid: u32)
        ensures { self.new ≡ map.remove self.old pid }
    {
        let _call = self.take(pid);
    }
}

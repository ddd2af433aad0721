//! What is due of all processes.
ghost use Rattle.std.specs.Prelude.{◌≡◌, OnOk};
ghost use Rattle.std.specs.FinMap as map;

use crate::due::Due;
use elf_load::below::pr_base::NoMemory;
use std::alloc::Global;
use std::collections::BTreeMap;
use std::marker::Model;

/// What is due of each process that stands between the two stops of a call. After want of memory it may only be dropped.
#[derive(Drop)]
pub(crate) struct Dues {
    kept: BTreeMap<u32, Due>,
}

impl Model for Dues {
    ghost use Rattle.std.specs.Coded.{codes, coded_ℕ};
    ghost use Rattle.std.specs.FinMap as map;
    ghost use Rattle.std.specs.Ordering.{nat_cmp};
    ghost use Rattle.pt_faker.specs.declared.due.Due.{Due};

    ghost Value = { map.FinMap nat_cmp Due };

    ghost coded = { map.code coded_ℕ (Prim.hlevel codes) };

    ghost view = { λ d. map.from_entries d.kept.entries };
}

impl Dues {
    ghost use Rattle.pt_faker.specs.Faking.{dues_with};

    /// Nothing is due. It takes no memory.
    pub(crate) fn new(alloc: Global) -> Dues
        ensures { result ≡ map.empty }
    {
        Dues {
            kept: BTreeMap::new(alloc),
        }
    }

    /// Something is due of a process in place of what was, or nothing any more.
    pub(crate) fn set(&mut self, pid: u32, due: Option<Due>) -> Result<(), NoMemory>
        ensures { OnOk result (self.new ≡ dues_with pid due self.old) }
    {
        match due {
            Some(due) => {
                self.kept.insert(pid, due)?;
                Ok(())
            }
            None => {
                let _due = self.kept.remove(&pid);
                Ok(())
            }
        }
    }

    /// What is due of a process; then nothing is any more.
    pub(crate) fn take(&mut self, pid: u32) -> Option<Due>
        ensures due { result ≡ map.get self.old pid }
        ensures taken { self.new ≡ map.remove self.old pid }
    {
        self.kept.remove(&pid)
    }
}

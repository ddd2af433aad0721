//! The tags of one process.
ghost use Rattle.std.specs.Prelude.{◌≡◌, IfOk, OnOk, OnErr};

use crate::slot::Slot;
use pr_base::NoMemory;
use std::alloc::Global;
use std::collections::BTreeMap;
use std::marker::Model;

/// The tags of one process.
#[derive(Drop)]
pub(crate) struct Tagged {
    cwd: u32,
    exe: u32,
    fds: BTreeMap<u32, u32>,
}

impl Model for Tagged {
    ghost use Rattle.std.specs.FinMap as map;
    ghost use Rattle.pt_bind.specs.Tags.{Tagged, tagged_code};

    ghost Value = { Tagged };

    ghost coded = { tagged_code };

    ghost view = { λ t. record { cwd = t.cwd; exe = t.exe; fds = map.from_entries t.fds.entries } };
}

impl Tagged {
    ghost use Rattle.pt_bind.specs.Tags.{tag_at, untagged, with_slot};

    /// No tag is set. It takes no memory.
    pub(crate) fn new(alloc: Global) -> Tagged
        ensures { result ≡ untagged }
    {
        Tagged {
            cwd: 0,
            exe: 0,
            fds: BTreeMap::new(alloc),
        }
    }

    /// The tag of a slot, 0 where none is set.
    pub(crate) fn get(&self, slot: Slot) -> u32
        ensures { result ≡ tag_at self.now slot }
    {
        match slot {
            Slot::Cwd => self.cwd,
            Slot::Exe => self.exe,
            Slot::Fd(fd) => self.fds.get(&fd).copied().unwrap_or(0),
        }
    }

    /// Sets the tag of a slot. Where memory is wanting nothing changes.
    pub(crate) fn set(&mut self, slot: Slot, tag: u32) -> Result<(), NoMemory>
        ensures ok { OnOk result (self.new ≡ with_slot self.old slot tag) }
        ensures err { OnErr result (self.new ≡ self.old) }
    {
        match slot {
            Slot::Cwd => self.cwd = tag,
            Slot::Exe => self.exe = tag,
            Slot::Fd(fd) => {
                self.fds.insert(fd, tag)?;
            }
        }
        Ok(())
    }

    /// The same tags once more.
    pub(crate) fn copy(&self) -> Result<Tagged, NoMemory>
        ensures { IfOk result (λ copy. copy ≡ self.now) }
    {
        let fds = self.fds.clone()?;
        Ok(Tagged {
            cwd: self.cwd,
            exe: self.exe,
            fds,
        })
    }
}

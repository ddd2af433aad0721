//! Tags: which binding the objects of a process came through.
ghost use Rattle.std.specs.Prelude.{◌≡◌, IfOk, OnOk, OnErr};
ghost use Rattle.std.specs.FinMap as map;

use crate::slot::Slot;
use crate::tagged::Tagged;
use pr_base::NoMemory;
use std::alloc::Global;
use std::collections::BTreeMap;
use std::marker::Model;

/// For each process the indices of the bindings through which its working directory, its executable and what its
/// descriptors are open for were found, 0 where none is set.
#[derive(Drop)]
pub struct Tags {
    by_pid: BTreeMap<u32, Tagged>,
    alloc: Global,
}

impl Model for Tags {
    ghost use Rattle.std.specs.FinMap as map;
    ghost use Rattle.pt_bind.specs.Tags.{TagTable, tag_table_code};

    ghost Value = { TagTable };

    ghost coded = { tag_table_code };

    ghost view = { λ t. map.from_entries t.by_pid.entries };
}

impl Tags {
    ghost use Rattle.pt_bind.specs.declared.slot.Slot.TheVariants as slot;
    ghost use Rattle.pt_bind.specs.Tags.{tag_of, tags_of, with_tag, forked, dropped};

    /// No tag is set. It takes no memory.
    pub fn new(alloc: Global) -> Tags
        ensures { result ≡ map.empty }
    {
        Tags {
            by_pid: BTreeMap::new(alloc),
            alloc,
        }
    }

    /// Gives the process `to` the tags of `from`. Where memory is wanting nothing changes.
    pub fn fork(&mut self, from: u32, to: u32) -> Result<(), NoMemory>
        ensures ok { OnOk result (self.new ≡ forked self.old from to) }
        ensures err { OnErr result (self.new ≡ self.old) }
    {
        let tags = self.copy_of(from)?;
        self.by_pid.insert(to, tags)?;
        Ok(())
    }

    /// Takes all tags of a process away.
    pub fn drop_pid(&mut self, pid: u32)
        ensures { self.new ≡ dropped self.old pid }
    {
        let _gone = self.by_pid.remove(&pid);
    }

    /// The tag of a process's working directory.
    pub fn cwd(&self, pid: u32) -> u32
        ensures { result ≡ tag_of self.now pid slot.Cwd }
    {
        self.get(pid, Slot::Cwd)
    }

    /// The tag of a process's executable.
    pub fn exe(&self, pid: u32) -> u32
        ensures { result ≡ tag_of self.now pid slot.Exe }
    {
        self.get(pid, Slot::Exe)
    }

    /// The tag of what a descriptor of a process is open for.
    pub fn fd(&self, pid: u32, fd: u32) -> u32
        ensures { result ≡ tag_of self.now pid (slot.Fd fd) }
    {
        self.get(pid, Slot::Fd(fd))
    }

    /// Sets the tag of a process's working directory. Where memory is wanting nothing changes.
    pub fn set_cwd(&mut self, pid: u32, tag: u32) -> Result<(), NoMemory>
        ensures ok { OnOk result (self.new ≡ with_tag self.old pid slot.Cwd tag) }
        ensures err { OnErr result (self.new ≡ self.old) }
    {
        self.set(pid, Slot::Cwd, tag)
    }

    /// Sets the tag of a process's executable. Where memory is wanting nothing changes.
    pub fn set_exe(&mut self, pid: u32, tag: u32) -> Result<(), NoMemory>
        ensures ok { OnOk result (self.new ≡ with_tag self.old pid slot.Exe tag) }
        ensures err { OnErr result (self.new ≡ self.old) }
    {
        self.set(pid, Slot::Exe, tag)
    }

    /// Sets the tag of what a descriptor of a process is open for. Where memory is wanting nothing changes.
    pub fn set_fd(&mut self, pid: u32, fd: u32, tag: u32) -> Result<(), NoMemory>
        ensures ok { OnOk result (self.new ≡ with_tag self.old pid (slot.Fd fd) tag) }
        ensures err { OnErr result (self.new ≡ self.old) }
    {
        self.set(pid, Slot::Fd(fd), tag)
    }

    /// Sets the tags with which a process begins: those of its working directory and of its executable. Where memory is wanting nothing
    /// changes.
    pub fn begin(&mut self, pid: u32, cwd: u32, exe: u32) -> Result<(), NoMemory>
        ensures ok { OnOk result (self.new ≡ with_tag (with_tag self.old pid slot.Cwd cwd) pid slot.Exe exe) }
        ensures err { OnErr result (self.new ≡ self.old) }
    {
        let mut tags = self.copy_of(pid)?;
        tags.set(Slot::Cwd, cwd)?;
        tags.set(Slot::Exe, exe)?;
        self.by_pid.insert(pid, tags)?;
        Ok(())
    }

    /// The tags of a process once more.
    fn copy_of(&self, pid: u32) -> Result<Tagged, NoMemory>
        ensures { IfOk result (λ tags. tags ≡ tags_of self.now pid) }
    {
        match self.by_pid.get(&pid) {
            None => Ok(Tagged::new(self.alloc)),
            Some(tags) => tags.copy(),
        }
    }

    /// The tag of a slot.
    fn get(&self, pid: u32, slot: Slot) -> u32
        ensures { result ≡ tag_of self.now pid slot }
    {
        match self.by_pid.get(&pid) {
            None => 0,
            Some(tags) => tags.get(slot),
        }
    }

    /// Sets the tag of a slot.
    fn set(&mut self, pid: u32, slot: Slot, tag: u32) -> Result<(), NoMemory>
        ensures ok { OnOk result (self.new ≡ with_tag self.old pid slot tag) }
        ensures err { OnErr result (self.new ≡ self.old) }
    {
        if let Some(tags) = self.by_pid.get_mut(&pid) {
            return tags.set(slot, tag);
        }
        let mut tags = Tagged::new(self.alloc);
        tags.set(slot, tag)?;
        self.by_pid.insert(pid, tags)?;
        Ok(())
    }
}

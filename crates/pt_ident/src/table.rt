//! The identities of all processes, and the owners and modes that they set.
ghost use Rattle.std.specs.Prelude.{◌≡◌, IfOk, OnOk};
ghost use Rattle.std.specs.Option.{option_copied};

use crate::change::Change;
use crate::ids::Ids;
use crate::owners::Owners;
use kr_inode::below::pr_base::NoMemory;
use std::alloc::Global;
use std::collections::BTreeMap;
use std::marker::Model;

/// The identity of each process, by its number, and what was said of files, by whichever process. A process for which nothing is kept has the
/// starting identity. After want of memory the table may only be dropped.
#[derive(Drop)]
pub struct Identities {
    alloc: Global,
    uid: u32,
    gid: u32,
    kept: BTreeMap<u32, Ids>,
    owners: Owners,
}

impl Model for Identities {
    ghost use Rattle.std.specs.FinMap as map;
    ghost use Rattle.pt_ident.specs.IdentityTable.{IdentityTable, table_code};

    ghost Value = { IdentityTable };

    ghost coded = { table_code };

    ghost view = { λ t. record { uid = t.uid; gid = t.gid; kept = map.from_entries t.kept.entries; owners = t.owners } };
}

impl Identities {
    ghost use Rattle.pt_ident.specs.IdentityTable.{after_birth, after_end, identity_at, shown_owners, starting_table, starts_as_root, with_identity, with_noted};

    /// Processes start as this user and this group. It takes no memory.
    pub fn new(alloc: Global, uid: u32, gid: u32) -> Identities
        ensures { result ≡ starting_table uid gid }
    {
        Identities {
            alloc,
            uid,
            gid,
            kept: BTreeMap::new(alloc),
            owners: Owners::new(alloc),
        }
    }

    /// The user and the group with which processes start.
    pub fn start(&self) -> (u32, u32)
        ensures uid { result.0 ≡ self.now.uid }
        ensures gid { result.1 ≡ self.now.gid }
    {
        (self.uid, self.gid)
    }

    /// Whether processes start as root.
    pub fn starts_as_root(&self) -> bool
        ensures { result ≡ starts_as_root self.now }
    {
        self.uid == 0
    }

    /// What is shown of owners and modes that were set: only processes that start as root are shown them.
    pub fn shown_owners(&self) -> Option<&Owners>
        ensures { option_copied result ≡ shown_owners self.now }
    {
        if self.starts_as_root() {
            Some(&self.owners)
        } else {
            None
        }
    }

    /// Remembers what was said of the file to which a call led, if it led to one.
    pub fn note(&mut self, target: Option<u64>, change: Change) -> Result<(), NoMemory>
        ensures { OnOk result (self.new ≡ with_noted target change self.old) }
    {
        match target {
            Some(ino) => {
                self.owners.note(ino, change)?;
                Ok(())
            }
            None => Ok(()),
        }
    }

    /// The identity of a process, of which nothing is kept then.
    pub fn take(&mut self, pid: u32) -> Result<Ids, NoMemory>
        ensures identity { IfOk result (λ ids. ids ≡ identity_at self.old pid) }
        ensures ok { OnOk result (self.new ≡ after_end pid self.old) }
    {
        match self.kept.remove(&pid) {
            Some(ids) => Ok(ids),
            None => {
                let ids = Ids::new(self.alloc, self.uid, self.gid)?;
                Ok(ids)
            }
        }
    }

    /// Keeps the identity of a process.
    pub fn keep(&mut self, pid: u32, ids: Ids) -> Result<(), NoMemory>
        ensures { OnOk result (self.new ≡ with_identity pid ids self.old) }
    {
        self.kept.insert(pid, ids)?;
        Ok(())
    }

    /// A process makes a child, which begins with what its parent has.
    pub fn born(&mut self, parent: u32, child: u32) -> Result<(), NoMemory>
        ensures { OnOk result (self.new ≡ after_birth parent child self.old) }
    {
        let ids = self.copy_of(parent)?;
        self.kept.insert(child, ids)?;
        Ok(())
    }

    /// A copy of the identity of a process.
    fn copy_of(&self, pid: u32) -> Result<Ids, NoMemory>
        ensures { IfOk result (λ ids. ids ≡ identity_at self.now pid) }
    {
        match self.kept.get(&pid) {
            Some(ids) => {
                let copy = ids.copied()?;
                Ok(copy)
            }
            None => {
                let ids = Ids::new(self.alloc, self.uid, self.gid)?;
                Ok(ids)
            }
        }
    }

    /// A process ended.
    pub fn gone(&mut self, pid: u32)
        ensures { self.new ≡ after_end pid self.old }
    {
        let _ids = self.kept.remove(&pid);
    }
}

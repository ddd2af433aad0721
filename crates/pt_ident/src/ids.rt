//! The numbers of a process.
ghost use Rattle.std.specs.Prelude.{◌≡◌, ◌≤◌, IfOk, length};
ghost use Rattle.pt_ident.specs.Identity.{after_exec, child_of, is_privileged, most_groups, numbers_of, saved_by_exec, starting, three_of, with_groups};

use kr_inode::below::pr_base::NoMemory;
use std::alloc::Global;
use std::marker::Model;

/// The places of the real and the effective number among three.
pub(crate) const REAL: usize = 0;

pub(crate) const EFFECTIVE: usize = 1;

/// The identity of a process (credentials(7)): three numbers of its user and three of its group, the real, the effective and
/// the saved one, and at most 65,536 groups.
#[derive(Drop)]
pub struct Ids {
    uid: [u32; 3],
    gid: [u32; 3],
    groups: Vec<u32>,
}

impl Model for Ids {
    ghost use Rattle.std.specs.Prelude.{◌≤◌, length};
    ghost use Rattle.pt_ident.specs.Identity.{Identity, most_groups, numbers_of};

    ghost Value = { Identity };

    ghost view = { λ i. record { user = numbers_of i.uid; group = numbers_of i.gid; groups = i.groups.items } };

    ghost invariant = { λ i. length i.groups.items ≤ most_groups };
}

impl Ids {
    /// All numbers of the user are `uid`, all of the group `gid`, which is the only one of the groups.
    pub fn new(alloc: Global, uid: u32, gid: u32) -> Result<Ids, NoMemory>
        ensures { IfOk result (λ ids. ids ≡ starting uid gid) }
    {
        let groups = vec![in alloc; gid]?;
        Ok(Ids {
            uid: [uid; 3],
            gid: [gid; 3],
            groups,
        })
    }

    /// What a child begins with.
    pub fn copied(&self) -> Result<Ids, NoMemory>
        ensures { IfOk result (λ child. child ≡ child_of self.now) }
    {
        let groups = self.groups.clone()?;
        Ok(Ids {
            uid: self.uid,
            gid: self.gid,
            groups,
        })
    }

    /// A new program begins: the saved numbers become the effective ones.
    pub fn after_exec(&mut self)
        ensures { self.new ≡ after_exec self.old }
    {
        self.uid = saved_by_exec(self.uid);
        self.gid = saved_by_exec(self.gid);
    }

    /// Keeps other groups. It takes no memory.
    pub fn set_groups(&mut self, groups: Vec<u32>)
        requires { length groups.items ≤ most_groups }
        ensures { self.new ≡ with_groups self.old groups.items }
    {
        self.groups = groups;
    }

    pub fn groups(&self) -> &[u32]
        ensures groups { result.now ≡ self.now.groups }
        ensures few { length result.now ≤ most_groups }
    {
        self.groups.as_slice()
    }

    /// The numbers of the user: real, effective and saved.
    pub(crate) fn user(&self) -> [u32; 3]
        ensures { result ≡ three_of self.now.user }
    {
        let [real, effective, saved] = self.uid;
        [real, effective, saved]
    }

    /// The numbers of the group.
    pub(crate) fn group(&self) -> [u32; 3]
        ensures { result ≡ three_of self.now.group }
    {
        let [real, effective, saved] = self.gid;
        [real, effective, saved]
    }

    pub(crate) fn set_user(&mut self, uid: [u32; 3])
        ensures { self.new ≡ record { user = numbers_of uid; group = self.old.group; groups = self.old.groups } }
    {
        self.uid = uid;
    }

    pub(crate) fn set_group(&mut self, gid: [u32; 3])
        ensures { self.new ≡ record { user = self.old.user; group = numbers_of gid; groups = self.old.groups } }
    {
        self.gid = gid;
    }

    /// Whether the effective user is 0.
    pub(crate) fn is_privileged(&self) -> bool
        ensures { result ≡ is_privileged self.now }
    {
        self.uid[EFFECTIVE] == 0
    }
}

/// Real and effective number stay, and the effective one is saved too.
fn saved_by_exec(numbers: [u32; 3]) -> [u32; 3]
    ensures { numbers_of result ≡ saved_by_exec (numbers_of numbers) }
{
    let [real, effective, _] = numbers;
    [real, effective, effective]
}

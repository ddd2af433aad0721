//! What the words ask for.
ghost use Rattle.std.specs.Prelude.{◌≡◌, [], ◌∷◌, ◌++◌, ◌+◌, ◌<◌, ◌^◌, length, ◌↔◌, IsTrue, OnOk};
ghost use Rattle.pr_words.specs.Bindings.{with_bind};

use pr_base::{Bind, Bytes, NoMemory, Texts};
use std::alloc::Global;
use std::marker::Model;

/// One slot of a schedule: in its turn the process at place `pick` runs, for `fuel` instructions at most.
#[derive(Clone, Copy)]
pub struct Slot {
    /// 0 to 255.
    pub pick: u32,
    /// 1 to 100,000.
    pub fuel: u32,
}

/// Slots in order, which contracts see as a list.
#[derive(Drop)]
pub struct Slots {
    list: Vec<Slot>,
}

impl Model for Slots {
    ghost use Rattle.std.specs.Prelude.{List};
    ghost use Rattle.pr_words.specs.declared.options.Slot.{Slot as OneSlot};

    ghost Value = { List OneSlot };

    ghost view = { λ s. s.list.items };
}

impl From<Vec<Slot>> for Slots {
    ghost from_gives = { λ list slots. slots ≡ list.items };

    fn from(list: Vec<Slot>) -> Slots {
        Slots { list }
    }
}

impl Slots {
    /// No slots. It takes no memory.
    pub fn new(alloc: Global) -> Slots
        ensures { result ≡ [] }
    {
        Slots {
            list: Vec::new(alloc),
        }
    }

    /// The slots as the vector that holds them. It takes no memory.
    pub fn into_vec(self) -> Vec<Slot>
        ensures { result.items ≡ self }
    {
        self.list
    }

    pub fn as_slice(&self) -> &[Slot]
        ensures { result.now ≡ self.now }
    {
        self.list.as_slice()
    }

    pub fn len(&self) -> usize
        ensures { result ≡ length self.now }
    {
        self.list.len()
    }

    pub fn is_empty(&self) -> bool
        ensures { IsTrue result ↔ (self.now ≡ []) }
    {
        self.list.is_empty()
    }
}

/// Bindings in the order in which they are given, which contracts see as a list.
#[derive(Drop)]
pub struct Binds {
    list: Vec<Bind>,
}

impl Model for Binds {
    ghost use Rattle.std.specs.Prelude.{List};
    ghost use Rattle.pr_base.specs.declared.bind.Bind.{Bind as OneBind};

    ghost Value = { List OneBind };

    ghost view = { λ b. b.list.items };
}

impl From<Vec<Bind>> for Binds {
    ghost from_gives = { λ list binds. binds ≡ list.items };

    fn from(list: Vec<Bind>) -> Binds {
        Binds { list }
    }
}

impl Binds {
    /// No bindings, in a value that can grow. It takes no memory yet.
    pub fn new(alloc: Global) -> Binds
        ensures { result ≡ [] }
    {
        Binds {
            list: Vec::new(alloc),
        }
    }

    /// Adds a binding at the end, with the next index.
    pub(crate) fn add(&mut self, host: Bytes, guest: Bytes, keep: bool) -> Result<(), NoMemory>
        requires { length self.old + 1 < 2 ^ 32 }
        ensures { OnOk result (self.new ≡ with_bind host guest keep self.old) }
    {
        let index = self.list.len() as u32 + 1;
        let bind = Bind {
            index,
            host,
            guest,
            keep,
        };
        self.list.push(bind)?;
        Ok(())
    }

    /// The bindings as the vector that holds them. It takes no memory.
    pub fn into_vec(self) -> Vec<Bind>
        ensures { result.items ≡ self }
    {
        self.list
    }

    pub fn as_slice(&self) -> &[Bind]
        ensures { result.now ≡ self.now }
    {
        self.list.as_slice()
    }

    pub fn len(&self) -> usize
        ensures { result ≡ length self.now }
    {
        self.list.len()
    }

    pub fn is_empty(&self) -> bool
        ensures { IsTrue result ↔ (self.now ≡ []) }
    {
        self.list.is_empty()
    }
}

/// What the words ask for.
#[derive(Drop)]
pub struct Options {
    /// The path of the guest's root directory, `/` where none is given.
    pub root: Bytes,
    /// The bindings; the first has index 1.
    pub binds: Binds,
    /// The path of the first working directory, `/` where none is given.
    pub cwd: Bytes,
    /// The user and the group that the guest sees as its own, where they aren't those of the host.
    pub ids: Option<(u32, u32)>,
    /// The environment: texts `K=V`. A name that is given again has its last value in its first place.
    pub env: Texts,
    /// After how many turns, or single steps, the run is over.
    pub turns: u32,
    /// The slots of the schedule, which are used in a cycle; none where no schedule is given.
    pub schedule: Slots,
    /// The slots of single steps, which are used in a cycle; none where no such steps are asked for.
    pub loose: Slots,
    /// The mounted kernel is run.
    pub native: bool,
    /// The last line tells whether the run was calm.
    pub calm: bool,
    /// The number of a generated case.
    pub case: Option<u32>,
    /// The command and its arguments.
    pub command: Texts,
}

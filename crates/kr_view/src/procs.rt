//! What a walk asks of the processes.

use kr_tree::below::pr_base::{Bytes, NoMemory};
use kr_tree::{Ino, Place, ProcAt};
use std::marker::PhantomData;

/// Where a link of the process directory leads.
#[derive(Drop)]
pub enum Lead<M> {
    /// To what a text names.
    Text(Bytes),
    /// To an object, whatever its name is now. A file has the directory and name that its object
    /// remembers; of a directory `dir` is 0 and `name` is empty, and neither is used.
    Jump {
        place: Place<M>,
        dir: Ino,
        name: Bytes,
    },
    /// To an object without a name.
    Nameless,
    /// It is no link.
    NoLink,
}

/// What the process directory shows to a caller.
pub trait Procs {
    type Mount: Copy;

    ghost use Rattle.std.specs.Prelude.{◌≡◌, ℕ, List, Option, IfOk};
    ghost use Rattle.kr_tree.specs.declared.place.ProcAt.{ProcAt};
    ghost use Rattle.kr_view.specs.declared.procs.Lead.{Lead};

    /// What a name stands for, in the process directory itself or in one of its directories.
    ghost finds: { Self → ℕ → Option ProcAt → List ℕ → Option ProcAt };

    /// Where a link leads.
    ghost leads: { Self → ℕ → ProcAt → Lead Self.Mount };

    /// What a name stands for to a caller, in the process directory itself or in one of its
    /// directories; `None` exactly where there is no such name.
    fn find(&self, caller: u32, at: Option<ProcAt>, name: &[u8]) -> Option<ProcAt>
        ensures { result ≡ finds self.now caller at name.now };

    /// Where a link leads a caller.
    fn lead(&self, caller: u32, at: ProcAt) -> Result<Lead<Self::Mount>, NoMemory>
        ensures { IfOk result (λ lead. lead ≡ leads self.now caller at) };
}

/// A process directory without names, as it is before a process lives.
#[derive(Clone, Copy)]
pub struct NoProcs<M> {
    mounts: PhantomData<M>,
}

impl<M> NoProcs<M> {
    pub fn new() -> NoProcs<M> {
        NoProcs {
            mounts: PhantomData,
        }
    }
}

impl<M: Copy> Procs for NoProcs<M> {
    type Mount = M;

    ghost use Rattle.std.specs.Prelude.{◌≡◌, Ok};
    ghost use Rattle.kr_view.specs.Processes.{no_finds};
    ghost use Rattle.kr_view.specs.declared.procs.Lead.TheVariants.{NoLink};

    ghost finds = { λ procs caller. no_finds };

    ghost leads = { λ procs caller at. NoLink };

    fn find(&self, _caller: u32, _at: Option<ProcAt>, _name: &[u8]) -> Option<ProcAt> {
        None
    }

    fn lead(&self, _caller: u32, _at: ProcAt) -> Result<Lead<M>, NoMemory>
        ensures { result ≡ Ok NoLink }
    {
        Ok(Lead::NoLink)
    }
}

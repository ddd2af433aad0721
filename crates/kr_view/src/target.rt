//! What a walk answers.

use kr_tree::Place;
use kr_tree::below::pr_base::{Bytes, Errno, Last, NoMemory};

/// Where a path leads.
#[derive(Drop)]
pub struct Target<M> {
    /// The directory of the last component.
    pub dir: Place<M>,
    /// The last component, where it is a name.
    pub name: Bytes,
    pub last: Last,
    /// Whether a slash stands behind the last component.
    pub slash: bool,
    /// What was found; `None` for a free name.
    pub found: Option<Place<M>>,
}

/// Why a walk gives no target.
#[derive(Clone, Copy)]
pub enum WalkFault {
    Err(Errno),
    NoMemory,
}

impl From<NoMemory> for WalkFault {
    ghost use Rattle.std.specs.Prelude.{◌≡◌};
    ghost use Rattle.kr_view.specs.declared.target.WalkFault.TheVariants.{NoMemory as WantOfMemory};

    ghost from_gives = { λ error fault. fault ≡ WantOfMemory };

    fn from(_error: NoMemory) -> WalkFault {
        WalkFault::NoMemory
    }
}

/// What walks reached so far.
#[derive(Clone, Copy)]
pub struct Reach {
    /// The length of the longest host name of a place or free name.
    pub longest: u64,
    /// Whether a name was looked up in the process directory.
    pub met_proc: bool,
}

impl Reach {
    ghost use Rattle.std.specs.Prelude.{◌≡◌, ◌||◌};
    ghost use Rattle.kr_view.specs.Reach.{greater};

    /// Raises the longest length to one that is there and greater.
    pub fn raise(&mut self, length: Option<u64>)
        ensures longest { self.new.longest ≡ greater length self.old.longest }
        ensures met_proc { self.new.met_proc ≡ self.old.met_proc }
    {
        if let Some(length) = length {
            self.longest = self.longest.max(length);
        }
    }

    /// Notes whether a name was looked up in the process directory.
    pub fn meet(&mut self, met: bool)
        ensures longest { self.new.longest ≡ self.old.longest }
        ensures met_proc { self.new.met_proc ≡ (self.old.met_proc || met) }
    {
        self.met_proc = self.met_proc || met;
    }
}

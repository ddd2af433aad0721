//! Changes of a process itself.
ghost use Rattle.std.specs.Prelude.{◌≡◌, ℕ, IsSome};
ghost use Rattle.law_lawful.specs.kr_tree.Tree.{inode};
ghost use Rattle.law_lawful.specs.kr_model.Change.{SetBreak, SetUmask};
ghost use Rattle.law_lawful.specs.kr_model.Lawful.{ArePids};
ghost use Rattle.law_lawful.specs.kr_model.State.{inode_of as host_inode};
ghost use Rattle.kr_ops.specs.Meaning.{meaning};
ghost use Rattle.kr_ops.specs.Making.{Makes};
ghost use Rattle.kr_ops.specs.Opening.{MovesTo};
ghost use Rattle.kr_ops.specs.Sound.{IsServed, IsSoundFor};

use crate::holding::{hold, release};
use crate::state::State;
use law_lawful::below::Place;

impl<T: Copy, const M: u8> State<T, M> {
    /// Sets the break of a process. Its pages are changed apart from it.
    pub fn set_break(&mut self, pid: u32, brk: u64)
        requires { ArePids (meaning self.old) }
        ensures makes { Makes pid (SetBreak brk) self.old self.new }
        ensures served { IsServed self.old → IsServed self.new }
    {
        if let Some(k) = self.index_of(pid) {
            self.living[k].brk = brk;
        }
    }

    /// Sets the umask of a process.
    pub fn set_umask(&mut self, pid: u32, umask: u16)
        requires { ArePids (meaning self.old) }
        ensures makes { Makes pid (SetUmask umask) self.old self.new }
        ensures served { IsServed self.old → IsServed self.new }
    {
        if let Some(k) = self.index_of(pid) {
            self.living[k].umask = umask;
        }
    }

    /// Gives a living process another working directory.
    pub fn change_directory(&mut self, pid: u32, place: Place<T>)
        requires caller { IsSoundFor pid self.old }
        requires there { IsSome (inode self.old.tree (host_inode place.host)) }
        ensures makes { MovesTo pid place self.old self.new }
        ensures served { IsServed self.new }
    {
        let Some(k) = self.index_of(pid) else {
            unreachable!();
        };
        // The new directory is held before the old one is let go, so one that is both stays.
        let old = self.living[k].cwd;
        hold(&mut self.tree, Some(place));
        release(&mut self.tree, Some(old));
        self.living[k].cwd = place;
    }
}

//! The executable of a new program.
ghost use Rattle.std.specs.Prelude.{IsSome};
ghost use Rattle.law_lawful.specs.kr_tree.Tree.{inode};
ghost use Rattle.law_lawful.specs.kr_model.State.{inode_of as host_inode, process};
ghost use Rattle.kr_ops.specs.Meaning.{meaning};
ghost use Rattle.kr_ops.specs.Opening.{Executes};
ghost use Rattle.kr_ops.specs.Sound.{IsServed, IsSoundFor};

use crate::holding::{hold, release};
use crate::state::State;
use law_lawful::below::{Bytes, Ino, Place};

impl<T: Copy, const M: u8> State<T, M> {
    /// Gives a living process another executable, with the entry that it remembers; an empty name remembers none.
    pub fn replace_executable(&mut self, pid: u32, place: Place<T>, dir: Ino, name: Bytes)
        requires caller { IsSoundFor pid self.old }
        requires there { IsSome (inode self.old.tree (host_inode place.host)) }
        ensures makes { Executes pid place dir name self.old self.new }
        ensures served { IsServed self.new }
    {
        let Some(k) = self.index_of(pid) else {
            unreachable!();
        };
        // The new executable is held before the old one is let go, so one that is both stays.
        let old = self.living[k].exe;
        hold(&mut self.tree, Some(place));
        release(&mut self.tree, Some(old));
        let process = &mut self.living[k];
        process.exe = place;
        process.exe_dir = dir;
        process.exe_name = name;
    }
}

//! Names that go and names that move, with what remembers them: open files and executables.
ghost use Rattle.std.specs.Prelude.{◌≡◌, ◌+◌, ◌<◌, ◌^◌, ℕ, [], false, IfSome, OnOk, map as map_list, if◌then◌else◌};
ghost use Rattle.law_lawful.specs.kr_tree.Tree.{entry, body_is, is_filled};
ghost use Rattle.law_lawful.specs.kr_tree.Changes.{next_serial};
ghost use Rattle.law_lawful.specs.kr_tree.Lawful.{IsLawfulMove};
ghost use Rattle.law_lawful.specs.kr_model.Change.{MoveName, RemoveName};
ghost use Rattle.kr_ops.specs.Making.{Makes};
ghost use Rattle.kr_ops.specs.Remembering.{followed, forgotten, is_entry};
ghost use Rattle.kr_ops.specs.Sound.{IsServed};

use crate::state::State;
use law_lawful::below::{Bytes, Ino, NoMemory};

/// Whether an entry that is remembered is that of a name in a directory. An empty name remembers none.
fn is_entry(dir: Ino, name: &[u8], at: Ino, remembered: &Bytes) -> bool
    ensures { result ≡ is_entry dir name.now at remembered.now }
{
    !remembered.is_empty() && at == dir && remembered.as_slice() == name
}

/// Forgets an entry, if it is the one that is remembered.
fn forget(dir: Ino, name: &[u8], at: &mut Ino, remembered: &mut Bytes)
    ensures directory { at.new ≡ (if is_entry dir name.now at.old remembered.old then 0 else at.old) }
    ensures name { remembered.new ≡ (if is_entry dir name.now at.old remembered.old then [] else remembered.old) }
{
    if is_entry(dir, name, *at, remembered) {
        *at = 0;
        remembered.clear();
    }
}

/// Remembers the entry of `new` in `to` in place of another, if that is the one that is remembered.
fn follow(
    dir: Ino,
    name: &[u8],
    to: Ino,
    new: &[u8],
    at: &mut Ino,
    remembered: &mut Bytes,
) -> Result<(), NoMemory>
    ensures directory { OnOk result (at.new ≡ (if is_entry dir name.now at.old remembered.old then to else at.old)) }
    ensures name { OnOk result (remembered.new ≡ (if is_entry dir name.now at.old remembered.old then new.now else remembered.old)) }
{
    if is_entry(dir, name, *at, remembered) {
        remembered.clear();
        remembered.append(new)?;
        *at = to;
    }
    Ok(())
}

impl<T: Copy, const M: u8> State<T, M> {
    /// Takes a name away, if it is there. What remembers the entry remembers none.
    pub fn remove_name(&mut self, dir: Ino, name: &[u8])
        requires empty { IfSome (entry self.old.tree dir name.now) (λ ino. body_is is_filled self.old.tree ino ≡ false) }
        ensures makes { (pid : ℕ) → Makes pid (RemoveName dir name.now) self.old self.new }
        ensures served { IsServed self.old → IsServed self.new }
    {
        self.tree.remove(dir, name);
        self.files.removed(dir, name);
        self.forget_all(dir, name);
    }

    /// Moves an entry, as rename(2) does. What remembers the one that is replaced remembers none, and what remembers the old name
    /// remembers the new one.
    pub fn move_name(&mut self, dir: Ino, name: &[u8], to: Ino, new: &[u8]) -> Result<(), NoMemory>
        requires lawful { IsLawfulMove self.old.tree dir name.now to new.now }
        requires serials { next_serial self.old.tree to + 1 < 2 ^ 64 }
        ensures makes { (pid : ℕ) → OnOk result (Makes pid (MoveName dir name.now to new.now) self.old self.new) }
        ensures served { OnOk result (IsServed self.old → IsServed self.new) }
    {
        self.tree.rename(dir, name, to, new)?;
        self.files.renamed(dir, name, to, new)?;
        self.follow_all(dir, name, to, new)?;
        Ok(())
    }

    /// The executables that remember an entry forget it.
    fn forget_all(&mut self, dir: Ino, name: &[u8])
        ensures living { self.new.living.items ≡ map_list (forgotten dir name.now) self.old.living.items }
        ensures others { self.new ≡ record self.old { living = self.new.living } }
    {
        for k in 0..self.living.len() {
            let process = &mut self.living[k];
            forget(dir, name, &mut process.exe_dir, &mut process.exe_name);
        }
    }

    /// The executables follow an entry that took the place of another.
    fn follow_all(&mut self, dir: Ino, name: &[u8], to: Ino, new: &[u8]) -> Result<(), NoMemory>
        ensures living { OnOk result (self.new.living.items ≡ map_list (followed dir name.now to new.now) self.old.living.items) }
        ensures others { OnOk result (self.new ≡ record self.old { living = self.new.living }) }
    {
        for k in 0..self.living.len() {
            let process = &mut self.living[k];
            forget(to, new, &mut process.exe_dir, &mut process.exe_name);
            follow(
                dir,
                name,
                to,
                new,
                &mut process.exe_dir,
                &mut process.exe_name,
            )?;
        }
        Ok(())
    }
}

//! Processes that end and are waited for.
ghost use Rattle.std.specs.Prelude.{◌≡◌, ◌==◌, ℕ, nat_lt, not, OnOk, map as map_list};
ghost use Rattle.std.specs.List.{filter, position};
ghost use Rattle.law_lawful.specs.kr_model.Applied.{put_in};
ghost use Rattle.law_lawful.specs.kr_model.Change.{End, Reap};
ghost use Rattle.kr_ops.specs.Ending.{adopted, parent_after};
ghost use Rattle.kr_ops.specs.Meaning.{ended_meaning, meaning};
ghost use Rattle.kr_ops.specs.Making.{Makes};
ghost use Rattle.kr_ops.specs.Sound.{IsOfView, IsServed};

use crate::holding::release;
use crate::state::{EndedProcess, State};
use law_lawful::below::{ALL_PAGES, NoMemory};

/// The process that has the children of those that ended. It isn't among the living.
const FIRST_PROCESS: u32 = 1;

/// The parent of a process after another ended.
fn parent_after(pid: u32, parent: u32) -> u32
    ensures { result ≡ parent_after pid parent }
{
    if parent == pid { FIRST_PROCESS } else { parent }
}

/// Takes the ended process of a number away.
fn forget_ended(ended: &mut Vec<EndedProcess>, pid: u32)
    ensures { ended.new.items ≡ filter (λ e. not (e.pid == pid)) ended.old.items }
{
    ended.retain(|e| e.pid != pid);
}

/// Takes the ended children of a process away.
fn forget_children(ended: &mut Vec<EndedProcess>, parent: u32)
    ensures { ended.new.items ≡ filter (λ e. not (e.parent == parent)) ended.old.items }
{
    ended.retain(|e| e.parent != parent);
}

/// The index of the first process of a greater number, where there is one.
fn first_above(ended: &[EndedProcess], pid: u32) -> Option<usize>
    ensures { result ≡ position (λ e. nat_lt pid e.pid) ended.now }
{
    ended.iter().position(|e| pid < e.pid)
}

/// Puts an ended process in its place by its number.
fn put_in(ended: &mut Vec<EndedProcess>, process: EndedProcess) -> Result<(), NoMemory>
    ensures { OnOk result (map_list ended_meaning ended.new.items ≡ put_in (ended_meaning process) (map_list ended_meaning ended.old.items)) }
{
    let k = first_above(ended.as_slice(), process.pid).unwrap_or(ended.len());
    match ended.insert(k, process) {
        Ok(()) => Ok(()),
        Err(_) => Err(NoMemory),
    }
}

impl<T: Copy, const M: u8> State<T, M> {
    /// Gives the children of a process that ended to the first process.
    fn adopt_all(&mut self, pid: u32)
        ensures living { self.new.living.items ≡ map_list (adopted pid) self.old.living.items }
        ensures others { self.new ≡ record self.old { living = self.new.living } }
    {
        for k in 0..self.living.len() {
            let process = &mut self.living[k];
            process.parent = parent_after(pid, process.parent);
        }
    }

    /// Ends a process, as exit_group(2) does. Its status stays for its parent, unless that is the first process.
    pub fn end(&mut self, pid: u32, status: u32) -> Result<(), NoMemory>
        requires { IsOfView self.old }
        ensures makes { OnOk result (Makes pid (End status) self.old self.new) }
        ensures served { OnOk result (IsServed self.new) }
    {
        self.close_all(pid);
        let Some(k) = self.index_of(pid) else {
            return Ok(());
        };
        let mut process = self.living.remove(k);
        process.mem.unmap(&mut self.room, 0, ALL_PAGES);
        release(&mut self.tree, Some(process.cwd));
        release(&mut self.tree, Some(process.exe));
        self.adopt_all(pid);
        forget_children(&mut self.ended, pid);
        if process.parent == FIRST_PROCESS {
            return Ok(());
        }
        put_in(
            &mut self.ended,
            EndedProcess {
                pid,
                parent: process.parent,
                status,
            },
        )?;
        Ok(())
    }

    /// Takes an ended process away, as wait4(2) does.
    pub fn reap(&mut self, child: u32)
        requires { IsServed self.old }
        ensures makes { (pid : ℕ) → Makes pid (Reap child) self.old self.new }
        ensures served { IsServed self.new }
    {
        forget_ended(&mut self.ended, child);
    }
}

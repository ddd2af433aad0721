//! execve(2) as a whole.
ghost use Rattle.kr_perform.specs.law_allowed.Told.{SourcesAreNamed};
ghost use Rattle.kr_execve.specs.Executing.{told_of, Leaves};
ghost use Rattle.kr_perform.specs.law_allowed.Texts.{IsText, LinksHaveTexts};
ghost use Rattle.kr_perform.specs.kr_ops.Sound.{IsLawfulFor};
ghost use Rattle.kr_exec.specs.kr_tree.Lawful.{AreBytes};

use crate::finding::{cwd_of, find, plan};
use crate::loading::put;
use crate::marks::marks_read;
use crate::reading::read;
use kr_perform::below::{Errno, Places, Reach, State, WalkFault, lawful_states_are_sound};
use std::alloc::Global;

/// What became of an execve.
#[derive(Clone, Copy)]
pub enum Executed {
    /// A new program is in place of the caller's. Whether a marked byte of the old memory was read before it went.
    Replaced { marks_read: bool },
    /// Nothing was changed.
    Refused(Errno),
    NoMemory,
}

/// Carries out an execve of a living process, of a path and the addresses of two lists: finds the file, reads the lists, expands
/// scripts, and puts the program in place of the caller's. What the walks reach is added to `reach`. What is read of the caller's memory
/// is noted there, whatever is answered. After want of memory the state may only be dropped.
pub fn execute<P: Places, const M: u8>(
    alloc: Global,
    places: &P,
    state: &mut State<P::Mount, M>,
    pid: u32,
    path: &[u8],
    args: u64,
    env: u64,
    reach: &mut Reach,
) -> Executed
    requires text { IsText path.now }
    requires bytes { AreBytes path.now }
    requires named { SourcesAreNamed (P.mounts places.now) }
    requires caller { IsLawfulFor P.number (P.mounts places.now) pid state.old }
    requires links { LinksHaveTexts state.old.tree }
    ensures { Leaves P.number (P.mounts places.now) pid path.now args env state.old state.new reach.old reach.new result }
{
    match replace(alloc, places, state, pid, path, args, env, reach) {
        Ok(marks_read) => Executed::Replaced { marks_read },
        Err(WalkFault::Err(errno)) => Executed::Refused(errno),
        Err(WalkFault::NoMemory) => Executed::NoMemory,
    }
}

/// Puts the program of an execve in place of the caller's, as `execute` tells it. What is refused is an error; `Ok` says whether a marked
/// byte of the old memory was read.
fn replace<P: Places, const M: u8>(
    alloc: Global,
    places: &P,
    state: &mut State<P::Mount, M>,
    pid: u32,
    path: &[u8],
    args: u64,
    env: u64,
    reach: &mut Reach,
) -> Result<bool, WalkFault>
    requires text { IsText path.now }
    requires bytes { AreBytes path.now }
    requires named { SourcesAreNamed (P.mounts places.now) }
    requires caller { IsLawfulFor P.number (P.mounts places.now) pid state.old }
    requires links { LinksHaveTexts state.old.tree }
    ensures { Leaves P.number (P.mounts places.now) pid path.now args env state.old state.new reach.old reach.new (told_of result) }
{
    lawful_states_are_sound::<P::Mount, M>();
    let base = cwd_of(state, pid);
    let found = find(alloc, places, state, pid, base, path, reach)?;
    let lists = read(alloc, state, pid, args, env)?;
    let plan = plan(alloc, places, state, pid, base, found, path, lists, reach)?;
    let read = marks_read(state, pid);
    match put(alloc, state, pid, plan) {
        Ok(()) => Ok(read),
        Err(fault) => Err(fault),
    }
}

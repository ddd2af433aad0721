//! Which processes stand between the stops of their calls, and where.
ghost use Rattle.std.specs.Prelude.{◌≡◌, OnOk};
ghost use Rattle.std.specs.List.{find};
ghost use Rattle.std.specs.Option.{option_copied};
ghost use Rattle.kr_core.specs.Between.{begun_at, between_of, handed_at, is_paused, paused_at, phase_at, unpaused};
ghost use Rattle.kr_core.specs.Moving.{paused_after, paused_by};

use kr_turns::below::NoMemory;
use kr_turns::{After, Halt, Handed};

/// What a process that lives does next.
#[derive(Clone, Copy)]
pub enum Phase {
    /// Instructions.
    Running,
    /// The first stop of a call.
    AtCall,
    /// The call itself, which may have waited.
    Entered,
    /// Its second stop.
    Done,
}

/// What is kept of a call from its first stop on.
#[derive(Clone, Copy)]
pub struct Begun {
    /// Whether it has a path, and its caller no shelf.
    pub no_shelf: bool,
    /// Whether it was execve(2) before the stop, also where the stop gave it another number.
    pub exec: bool,
}

/// Where a process stands that doesn't run.
#[derive(Clone, Copy)]
pub enum Between {
    /// At a call, before its first stop.
    AtCall,
    /// Behind the first stop. The call may have waited.
    Entered(Begun),
    /// Behind the call, which hands this to the second stop.
    Done(Handed),
}

/// A process that stands between the stops of its call.
#[derive(Clone, Copy)]
pub struct Paused {
    pub pid: u32,
    pub between: Between,
}

/// What is kept of a process.
fn kept_of(paused: &[Paused], pid: u32) -> Option<&Paused>
    ensures { option_copied result ≡ find (is_paused pid) paused.now }
{
    paused.iter().find(|p| p.pid == pid)
}

/// Where a process stands. `None` of one that runs.
pub(crate) fn between_of(paused: &[Paused], pid: u32) -> Option<Between>
    ensures { result ≡ between_of pid paused.now }
{
    match kept_of(paused, pid) {
        Some(kept) => Some(kept.between),
        None => None,
    }
}

/// What it does next, by where it stands.
pub(crate) fn phase_at(between: Option<Between>) -> Phase
    ensures { result ≡ phase_at between }
{
    match between {
        None => Phase::Running,
        Some(Between::AtCall) => Phase::AtCall,
        Some(Between::Entered(_)) => Phase::Entered,
        Some(Between::Done(_)) => Phase::Done,
    }
}

/// What is kept of its call, if that was begun.
pub(crate) fn begun_at(between: Option<Between>) -> Option<Begun>
    ensures { result ≡ begun_at between }
{
    match between {
        None => None,
        Some(Between::AtCall) => None,
        Some(Between::Entered(begun)) => Some(begun),
        Some(Between::Done(_)) => None,
    }
}

/// What its call hands to the second stop, if it comes to that.
pub(crate) fn handed_at(between: Option<Between>) -> Option<Handed>
    ensures { result ≡ handed_at between }
{
    match between {
        None => None,
        Some(Between::AtCall) => None,
        Some(Between::Entered(_)) => None,
        Some(Between::Done(handed)) => Some(handed),
    }
}

/// Lets a process run, wherever it stood.
pub(crate) fn let_run(paused: &mut Vec<Paused>, pid: u32)
    ensures { paused.new.items ≡ unpaused pid paused.old.items }
{
    paused.retain(|p| p.pid != pid);
}

/// Keeps where a process stands, in place of where it stood.
pub(crate) fn pause(paused: &mut Vec<Paused>, pid: u32, between: Between) -> Result<(), NoMemory>
    ensures { OnOk result (paused.new.items ≡ paused_at pid between paused.old.items) }
{
    let_run(paused, pid);
    paused.push(Paused { pid, between })?;
    Ok(())
}

/// Keeps where a process stands that ran, by how its instructions ended.
pub(crate) fn pause_by(paused: &mut Vec<Paused>, pid: u32, halt: Halt) -> Result<(), NoMemory>
    ensures { OnOk result (paused.new.items ≡ paused_by pid halt paused.old.items) }
{
    match halt {
        Halt::AtCall => pause(paused, pid, Between::AtCall),
        Halt::Spent => Ok(()),
        Halt::Killed(_) => Ok(()),
    }
}

/// Keeps where a call leaves its caller.
pub(crate) fn pause_after(paused: &mut Vec<Paused>, pid: u32, after: After) -> Result<(), NoMemory>
    ensures { OnOk result (paused.new.items ≡ paused_after pid after paused.old.items) }
{
    match after {
        After::Waiting => Ok(()),
        After::Behind(handed) => pause(paused, pid, Between::Done(handed)),
        After::Gone => {
            let_run(paused, pid);
            Ok(())
        }
    }
}

//! The steps of a turn, each by itself: some instructions of a process; and of its call the first stop, the call, and the second stop.
ghost use Rattle.std.specs.Prelude.{◌≡◌, ◌<◌, ◌^◌, ℕ, suc, List, length, IfOk, IsSome, OnOk};
ghost use Rattle.kr_steps.specs.law_allowed.Told.{SourcesAreNamed};
ghost use Rattle.kr_steps.specs.Calls.{IsAltered, Runs};
ghost use Rattle.kr_steps.specs.law_steady.Told.{LeavesBoth};
ghost use Rattle.kr_execve.specs.kr_view.View.{Row};
ghost use Rattle.kr_calm.specs.kr_seen.Numbered.{state_numbered};
ghost use Rattle.kr_steps.specs.kr_model.State.{process};
ghost use Rattle.kr_hostview.specs.kr_ops.Meaning.{meaning};
ghost use Rattle.kr_hostview.specs.kr_ops.Sound.{IsSound};
ghost use Rattle.kr_turns.specs.Agreeing.{AgreesIn};
ghost use Rattle.kr_turns.specs.CallSteps.{behind_if};
ghost use Rattle.kr_turns.specs.Making.{IsCallMade, IsEntryMade, IsExitMade, IsLeftBehind, IsStretch, LeavesOthers, RunsFor, StaysBetween};
ghost use Rattle.kr_steps.specs.kr_stops.Remembering.{AgreesAt, FreesCaller, KeepsAllFree, KeepsOthersFree, StillAgrees};
ghost use Rattle.kr_steps.specs.kr_stops.Watching.{watching};
ghost use Rattle.kr_turns.specs.Held.{Stands, stopped_in};
ghost use Rattle.kr_steps.specs.kr_stops.Stopped.{IsEdited, nothing_handed};
ghost use Rattle.kr_turns.specs.Turn.{IsBorn, calling};
ghost use Rattle.kr_turns.specs.Breaking.{nothing_reached};
ghost use Rattle.kr_turns.specs.PlainCall.{plain_reach};

use crate::here::Here;
use crate::judging::{NOTHING, idle_rule, killed_rule};
use crate::plain::{CallEnd, Plain, plain_call};
use crate::shelving::shelve;
use kr_calm::Rule;
use kr_execve::below::Places;
use kr_execve::marks_read;
use kr_hostview::below::{NoMemory, State, lawful_states_are_sound};
use kr_steps::below::{Event, Handed, NOTHING_HANDED, Stops};
use kr_steps::{Altered, compute, kill};
use std::alloc::Global;

/// How some instructions of a process ended.
#[derive(Clone, Copy)]
pub enum Halt {
    /// All of them were done.
    Spent,
    /// A call was met, at which the process stands.
    AtCall,
    /// One of them killed it. It ended with this status: 128 and the number of the signal.
    Killed(u8),
}

impl Halt {
    ghost use Rattle.std.specs.Prelude.{◌≡◌};
    ghost use Rattle.kr_turns.specs.Making.{status_by};

    /// The status of a process that ended.
    pub fn status(self) -> Option<u8>
        ensures { result ≡ status_by self }
    {
        match self {
            Halt::Killed(status) => Some(status),
            Halt::Spent => None,
            Halt::AtCall => None,
        }
    }
}

/// What some instructions of a process came to.
#[derive(Clone, Copy)]
pub struct Stretch {
    pub halt: Halt,
    /// How many were done. One that kills counts, a call doesn't.
    pub done: u32,
    /// The smallest calm rule that they broke. Where marks aren't kept none is, and at a call the call tells it.
    pub broken: Option<Rule>,
}

/// Where a call leaves its caller.
#[derive(Clone, Copy)]
pub enum After {
    /// At the call, which waits.
    Waiting,
    /// Before its second stop, to which the call hands this.
    Behind(Handed),
    /// It ended.
    Gone,
}

/// What the first stop of a call came to.
#[derive(Clone, Copy)]
pub struct EntryMade {
    /// Whether the call has a path and its caller no shelf.
    pub no_shelf: bool,
    /// Whether the watcher asked for what stands at a name in the process directory.
    pub met: bool,
}

/// What a call came to.
#[derive(Clone, Copy)]
pub struct CallMade {
    pub after: After,
    /// The status of a caller that ended: its exit code, or 128 and the number of the signal that killed it.
    pub status: Option<u8>,
    /// The smallest calm rule that it broke. Where marks aren't kept none is.
    pub broken: Option<Rule>,
    /// Whether the shape of the tree is another behind it, and the bytes of a file.
    pub altered: Altered,
    /// Whether a walk of it looked up a name in the process directory.
    pub met: bool,
}

/// Does `fuel` instructions of a living process, or fewer where a call is met or one of them kills it. After want of memory the state and
/// the watcher may only be dropped.
pub fn run_for<S: Stops, T: Copy, const M: u8>(
    stops: &mut S,
    state: &mut State<T, M>,
    pid: u32,
    fuel: u32,
) -> Result<Stretch, NoMemory>
    requires caller { RunsFor pid state.old }
    requires agrees { AgreesIn S.agrees stops.old state.old }
    ensures stretch { IfOk result (λ told. (number : T → ℕ) → IsStretch (watching S.enters S.exits S.bears S.forgets) number fuel pid state.old stops.old state.new stops.new told) }
    ensures runs { OnOk result ((number : T → ℕ) (table : List Row) (calls : ℕ) → Runs number table calls state.old → Runs number table calls state.new) }
    ensures agrees { OnOk result (AgreesIn S.agrees stops.new state.new) }
    ensures free { OnOk result (KeepsOthersFree S.is_free pid stops.old stops.new) }
    ensures others { OnOk result ((number : T → ℕ) → LeavesOthers pid (state_numbered number (meaning state.old)) (state_numbered number (meaning state.new))) }
    ensures leaves { OnOk result (LeavesBoth state.old.tree state.new.tree) }
{
    lawful_states_are_sound::<T, M>();
    let (event, done) = compute(state, pid, fuel)?;
    match event {
        Event::Next => Ok(Stretch {
            halt: Halt::Spent,
            done,
            broken: idle_rule(state, pid, false, &NOTHING),
        }),
        Event::Call => {
            let before = done - 1;
            Ok(Stretch {
                halt: Halt::AtCall,
                done: before,
                broken: None,
            })
        }
        Event::Killed(signal) => {
            let read = marks_read(state, pid);
            kill(state, pid, signal)?;
            stops.gone(pid);
            Ok(Stretch {
                halt: Halt::Killed(128 + signal),
                done,
                broken: killed_rule(state, pid, read),
            })
        }
    }
}

/// The first stop of the call at which a living process stands. Tells whether the call has a path and its caller no shelf, and whether the
/// watcher asked for what stands at a name in the process directory. After want of memory the state and the watcher may only be dropped, as
/// after that of the next two.
pub fn enter_call<P: Places, S: Stops, const M: u8>(
    alloc: Global,
    places: &P,
    stops: &mut S,
    state: &mut State<P::Mount, M>,
    calls: u32,
    pid: u32,
) -> Result<EntryMade, NoMemory>
    requires runs { Runs P.number (P.mounts places.now) calls state.old }
    requires lives { IsSome (process pid (meaning state.old)) }
    requires agrees { AgreesIn S.agrees stops.old state.old }
    ensures enters { IfOk result (λ made. IsEntryMade (watching S.enters S.exits S.bears S.forgets) P.number pid state.old stops.old state.new stops.new made.no_shelf) }
    ensures met { IfOk result (λ made. made.met ≡ S.asks stops.old (calling M pid (state_numbered P.number (meaning state.old)))) }
    ensures stands { OnOk result (Stands P.number (P.mounts places.now) calls pid state.new) }
    ensures agrees { OnOk result (AgreesIn S.agrees stops.new state.new) }
    ensures frees { OnOk result (FreesCaller S.is_free (stopped_in P.number state.new pid nothing_handed) stops.new) }
    ensures free { OnOk result (KeepsOthersFree S.is_free pid stops.old stops.new) }
    ensures others { OnOk result (LeavesOthers pid (state_numbered P.number (meaning state.old)) (state_numbered P.number (meaning state.new))) }
    ensures tree { OnOk result (state.new.tree ≡ state.old.tree) }
{
    lawful_states_are_sound::<P::Mount, M>();
    let no_shelf = shelve(state, pid);
    let met = enter(alloc, places, stops, state, calls, pid)?;
    Ok(EntryMade { no_shelf, met })
}

/// The call of a process behind its first stop, which told of it whether it has a path and no shelf.
pub fn make_call<P: Places, S: Stops, const M: u8>(
    alloc: Global,
    places: &P,
    stops: &mut S,
    state: &mut State<P::Mount, M>,
    calls: u32,
    pid: u32,
    no_shelf: bool,
) -> Result<CallMade, NoMemory>
    requires named { SourcesAreNamed (P.mounts places.now) }
    requires few_rows { length (P.mounts places.now) < 2 ^ 32 }
    requires runs { Runs P.number (P.mounts places.now) calls state.old }
    requires few { calls < 2 ^ 31 }
    requires lives { IsSome (process pid (meaning state.old)) }
    requires agrees { AgreesIn S.agrees stops.old state.old }
    requires frees { FreesCaller S.is_free (stopped_in P.number state.old pid nothing_handed) stops.old }
    ensures met { IfOk result (λ made. made.met ≡ (plain_reach (P.mounts places.now) pid (state_numbered P.number (meaning state.old)) nothing_reached).met_proc) }
    ensures call { IfOk result (λ made. IsCallMade (watching S.enters S.exits S.bears S.forgets) P.number (P.mounts places.now) pid no_shelf state.old stops.old state.new stops.new made) }
    ensures runs { OnOk result (Runs P.number (P.mounts places.now) (suc calls) state.new) }
    ensures agrees { OnOk result (AgreesIn S.agrees stops.new state.new) }
    ensures free { OnOk result (KeepsOthersFree S.is_free pid stops.old stops.new) }
    ensures others { OnOk result (LeavesOthers pid (state_numbered P.number (meaning state.old)) (state_numbered P.number (meaning state.new))) }
    ensures stays { IfOk result (λ made. StaysBetween S.is_free pid (state_numbered P.number (meaning state.new)) stops.new made.after) }
    ensures altered { IfOk result (λ made. IsAltered made.altered state.old.tree state.new.tree) }
{
    lawful_states_are_sound::<P::Mount, M>();
    let plain = plain_call(alloc, places, state, pid, no_shelf)?;
    bear(stops, pid, plain.child)?;
    Ok(leave_behind(stops, state, pid, plain))
}

/// The second stop of a call, to which the call handed this.
pub fn leave_call<P: Places, S: Stops, const M: u8>(
    alloc: Global,
    places: &P,
    stops: &mut S,
    state: &mut State<P::Mount, M>,
    calls: u32,
    pid: u32,
    handed: Handed,
) -> Result<(), NoMemory>
    requires runs { Runs P.number (P.mounts places.now) calls state.old }
    requires lives { IsSome (process pid (meaning state.old)) }
    requires agrees { AgreesIn S.agrees stops.old state.old }
    ensures exits { OnOk result (IsExitMade (watching S.enters S.exits S.bears S.forgets) P.number pid handed state.old stops.old state.new stops.new) }
    ensures stands { OnOk result (Stands P.number (P.mounts places.now) calls pid state.new) }
    ensures agrees { OnOk result (AgreesIn S.agrees stops.new state.new) }
    ensures free { OnOk result (KeepsOthersFree S.is_free pid stops.old stops.new) }
    ensures others { OnOk result (LeavesOthers pid (state_numbered P.number (meaning state.old)) (state_numbered P.number (meaning state.new))) }
    ensures tree { OnOk result (state.new.tree ≡ state.old.tree) }
{
    exit(alloc, places, stops, state, calls, pid, handed)
}

/// What the watcher does at the first stop. Tells whether it asked for what stands at a name in the process directory.
fn enter<P: Places, S: Stops, const M: u8>(
    alloc: Global,
    places: &P,
    stops: &mut S,
    state: &mut State<P::Mount, M>,
    calls: u32,
    pid: u32,
) -> Result<bool, NoMemory>
    requires runs { Runs P.number (P.mounts places.now) calls state.old }
    requires lives { IsSome (process pid (meaning state.old)) }
    requires agrees { AgreesAt S.agrees stops.old (stopped_in P.number state.old pid nothing_handed) }
    ensures met { IfOk result (λ met. met ≡ S.asks stops.old (stopped_in P.number state.old pid nothing_handed)) }
    ensures enters { OnOk result (S.enters stops.old (stopped_in P.number state.old pid nothing_handed) stops.new (stopped_in P.number state.new pid nothing_handed)) }
    ensures edits { IsEdited (stopped_in P.number state.old pid nothing_handed) (stopped_in P.number state.new pid nothing_handed) }
    ensures stands { Stands P.number (P.mounts places.now) calls pid state.new }
    ensures agrees { OnOk result (AgreesAt S.agrees stops.new (stopped_in P.number state.new pid nothing_handed)) }
    ensures frees { OnOk result (FreesCaller S.is_free (stopped_in P.number state.new pid nothing_handed) stops.new) }
    ensures others { OnOk result (KeepsOthersFree S.is_free pid stops.old stops.new) }
{
    let mut here = Here::new(alloc, places, state, pid, NOTHING_HANDED, calls);
    let entered = stops.entry(&mut here);
    let met = here.met();
    // For the proof alone: the state is what was left at the stop.
    let _state = here.into_state();
    match entered {
        Ok(()) => Ok(met),
        Err(fault) => Err(fault),
    }
}

/// And at the second one.
fn exit<P: Places, S: Stops, const M: u8>(
    alloc: Global,
    places: &P,
    stops: &mut S,
    state: &mut State<P::Mount, M>,
    calls: u32,
    pid: u32,
    handed: Handed,
) -> Result<(), NoMemory>
    requires runs { Runs P.number (P.mounts places.now) calls state.old }
    requires lives { IsSome (process pid (meaning state.old)) }
    requires agrees { AgreesAt S.agrees stops.old (stopped_in P.number state.old pid handed) }
    ensures exits { OnOk result (S.exits stops.old (stopped_in P.number state.old pid handed) stops.new (stopped_in P.number state.new pid handed)) }
    ensures edits { IsEdited (stopped_in P.number state.old pid handed) (stopped_in P.number state.new pid handed) }
    ensures stands { Stands P.number (P.mounts places.now) calls pid state.new }
    ensures agrees { OnOk result (AgreesAt S.agrees stops.new (stopped_in P.number state.new pid handed)) }
    ensures others { OnOk result (KeepsOthersFree S.is_free pid stops.old stops.new) }
{
    let mut here = Here::new(alloc, places, state, pid, handed, calls);
    let exited = stops.exit(&mut here);
    // For the proof alone: the state is what was left at the stop.
    let _state = here.into_state();
    exited
}

/// Tells the watcher of a child, if one was made.
fn bear<S: Stops>(stops: &mut S, pid: u32, child: Option<u32>) -> Result<(), NoMemory>
    ensures born { OnOk result (IsBorn (watching S.enters S.exits S.bears S.forgets) pid child stops.old stops.new) }
    ensures agrees { OnOk result (StillAgrees S.agrees stops.old stops.new) }
    ensures free { OnOk result (KeepsAllFree S.is_free stops.old stops.new) }
{
    match child {
        Some(child) => stops.born(pid, child),
        None => Ok(()),
    }
}

/// What a call came to, by what was told of it. The watcher is told of a caller that ended.
fn leave_behind<S: Stops, T: Copy, const M: u8>(
    stops: &mut S,
    state: &State<T, M>,
    pid: u32,
    plain: Plain,
) -> CallMade
    requires { IsSound state.now }
    ensures left { (number : T → ℕ) → IsLeftBehind (watching S.enters S.exits S.bears S.forgets) number pid plain state.now stops.old stops.new result.after result.status }
    ensures broken { result.broken ≡ plain.broken }
    ensures altered { result.altered ≡ plain.altered }
    ensures met { result.met ≡ plain.reach.met_proc }
    ensures agrees { StillAgrees S.agrees stops.old stops.new }
    ensures free { KeepsOthersFree S.is_free pid stops.old stops.new }
{
    match plain.end {
        CallEnd::Answered => CallMade {
            after: behind_if(state, pid, plain.handed),
            status: None,
            broken: plain.broken,
            altered: plain.altered,
            met: plain.reach.met_proc,
        },
        CallEnd::Replaced => CallMade {
            after: behind_if(state, pid, plain.handed),
            status: None,
            broken: plain.broken,
            altered: plain.altered,
            met: plain.reach.met_proc,
        },
        CallEnd::Waits => CallMade {
            after: After::Waiting,
            status: None,
            broken: plain.broken,
            altered: plain.altered,
            met: plain.reach.met_proc,
        },
        CallEnd::Ended(status) => {
            stops.gone(pid);
            CallMade {
                after: After::Gone,
                status: Some(status),
                broken: plain.broken,
                altered: plain.altered,
                met: plain.reach.met_proc,
            }
        }
    }
}

/// A caller that lives comes to the second stop.
fn behind_if<T: Copy, const M: u8>(state: &State<T, M>, pid: u32, handed: Handed) -> After
    requires { IsSound state.now }
    ensures { (number : T → ℕ) → result ≡ behind_if handed (process pid (state_numbered number (meaning state.now))) }
{
    match state.index_of(pid) {
        Some(_) => After::Behind(handed),
        None => After::Gone,
    }
}

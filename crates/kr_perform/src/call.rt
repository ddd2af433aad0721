//! A call of a guest, from its paths to what it leaves.
ghost use Rattle.std.specs.Prelude.{◌≡◌, ◌≢◌, ◌<◌, ◌^◌, ℕ, suc, Ok, Some};
ghost use Rattle.law_allowed.specs.Allowed.{HoldsBytes};
ghost use Rattle.law_allowed.specs.Calls.{IsGivable};
ghost use Rattle.law_allowed.specs.kr_model.State.{Image, Process, process};
ghost use Rattle.law_allowed.specs.kr_model.declared.outcome.Outcome.TheVariants.{NoMemory as WantOfMemory};
ghost use Rattle.kr_rows.specs.kr_ops.Meaning.{meaning};
ghost use Rattle.kr_rows.specs.kr_ops.Sound.{IsLawfulFor, IsServed, IsSound};
ghost use Rattle.kr_transfer.specs.kr_seen.Numbered.{state_numbered};
ghost use Rattle.law_allowed.specs.kr_model.Walks.{targets_of};
ghost use Rattle.kr_transfer.specs.kr_seen.CallWalks.{call_reach, AreTargets};
ghost use Rattle.law_steady.specs.Ahead.{IsNoWrite};
ghost use Rattle.kr_perform.specs.Altering.{IsAltered, IsToldOf};
ghost use Rattle.kr_perform.specs.Calling.{CanBeMade, CanCall, IsCalled, Runs};
ghost use Rattle.kr_perform.specs.Operating.{HasNumbers, IsNoExec, OperatesAt};
ghost use Rattle.kr_perform.specs.Resolving.{AreResolved};

use crate::altering::{Altered, foretell, where_answered};
use crate::perform;
use kr_rows::answer::refused;
use kr_rows::below::{State, Targets, lawful_states_are_sound, walk_paths};
use kr_transfer::writing::{write, writev};
use law_allowed::below::{Outcome, Places, Reach, Request, Use, WalkFault};
use std::alloc::Global;

/// What a call came to, and what it altered.
#[derive(Clone, Copy)]
pub struct Carried {
    pub outcome: Outcome,
    pub altered: Altered,
}

/// Carries out a call of a living process that isn't execve(2): walks its paths, and then does what its row says of where they lead; a
/// path that leads nowhere answers its error. What the walks reach is added to `reach`. After want of memory the state may only be
/// dropped.
pub fn carry_out<P: Places, const M: u8>(
    alloc: Global,
    places: &P,
    state: &mut State<P::Mount, M>,
    pid: u32,
    request: &Request,
    reach: &mut Reach,
) -> Outcome
    requires kind { IsNoExec request.now }
    requires request { CanBeMade request.now }
    requires caller { CanCall P.number (P.mounts places.now) pid state.old }
    ensures called { result ≢ WantOfMemory → IsCalled P.number (P.mounts places.now) pid request.now state.old state.new result }
    ensures reach { result ≢ WantOfMemory → reach.new ≡ call_reach (P.mounts places.now) pid (state_numbered P.number (meaning state.old)) request.now reach.old }
    ensures runs { (calls : ℕ) → calls < 2 ^ 31 → Runs P.number (P.mounts places.now) calls state.old → result ≢ WantOfMemory → Runs P.number (P.mounts places.now) (suc calls) state.new }
{
    match walk_paths(alloc, places, state, pid, request, reach) {
        Ok(targets) => carry_out_along(alloc, places, state, pid, request, &targets).outcome,
        Err(WalkFault::Err(errno)) => refused(errno),
        Err(WalkFault::NoMemory) => Outcome::NoMemory,
    }
}

/// Carries out a call whose paths were walked: does what its row says of where they lead. What `perform` leaves is lawful and lasts (`runs`), since
/// all that the law of that asks for holds here (`performed_states_last`): a process's memory holds bytes, and what a call is told of
/// targets to which its walks led over a lawful state is so. Tells whether the shape of the tree is another behind it, and the bytes of a file.
pub fn carry_out_along<P: Places, const M: u8>(
    alloc: Global,
    places: &P,
    state: &mut State<P::Mount, M>,
    pid: u32,
    request: &Request,
    targets: &Targets<P::Mount>,
) -> Carried
    requires kind { IsNoExec request.now }
    requires request { CanBeMade request.now }
    requires caller { CanCall P.number (P.mounts places.now) pid state.old }
    requires along { AreTargets P.number (targets_of (P.mounts places.now) pid (state_numbered P.number (meaning state.old)) request.now) (Ok targets.now) }
    ensures called { result.outcome ≢ WantOfMemory → IsCalled P.number (P.mounts places.now) pid request.now state.old state.new result.outcome }
    ensures runs { (calls : ℕ) → calls < 2 ^ 31 → Runs P.number (P.mounts places.now) calls state.old → result.outcome ≢ WantOfMemory → Runs P.number (P.mounts places.now) (suc calls) state.new }
    ensures altered { result.outcome ≢ WantOfMemory → IsAltered result.altered state.old.tree state.new.tree }
{
    lawful_states_are_sound::<P::Mount, M>();
    memory_holds_bytes(state, pid);
    perform_told(alloc, places, state, pid, request, targets)
}

/// Carries out a call as `perform` does, and tells what it altered: a write by what is written, any other ahead of it.
fn perform_told<P: Places, const M: u8>(
    alloc: Global,
    places: &P,
    state: &mut State<P::Mount, M>,
    pid: u32,
    request: &Request,
    targets: &Targets<P::Mount>,
) -> Carried
    requires kind { IsNoExec request.now }
    requires given { IsGivable request.now }
    requires caller { IsLawfulFor P.number (P.mounts places.now) pid state.old }
    requires resolved { AreResolved state.old.tree (P.mounts places.now) request.now targets.now }
    requires numbers { HasNumbers state.old }
    ensures performs { OperatesAt P.number (P.mounts places.now) pid request.now targets.now.first targets.now.second state.old state.new result.outcome }
    ensures served { result.outcome ≢ WantOfMemory → IsServed state.new }
    ensures told { result.outcome ≢ WantOfMemory → IsToldOf P.number (P.mounts places.now) pid request.now targets.now.first targets.now.second state.old result.altered }
{
    lawful_states_are_sound::<P::Mount, M>();
    match request {
        Request::Write { fd, buf, n } => {
            let written = write(state, pid, *fd, *buf, *n);
            Carried {
                outcome: written.outcome,
                altered: Altered {
                    shape: false,
                    bytes: written.differs,
                },
            }
        }
        Request::Writev { fd, list, count } => {
            let written = writev(state, pid, *fd, *list, *count);
            Carried {
                outcome: written.outcome,
                altered: Altered {
                    shape: false,
                    bytes: written.differs,
                },
            }
        }
        _ => perform_foretold(alloc, places, state, pid, request, targets),
    }
}

/// Carries out a call that is no write, and tells what it altered, which was foretold.
fn perform_foretold<P: Places, const M: u8>(
    alloc: Global,
    places: &P,
    state: &mut State<P::Mount, M>,
    pid: u32,
    request: &Request,
    targets: &Targets<P::Mount>,
) -> Carried
    requires kind { IsNoExec request.now }
    requires plain { IsNoWrite request.now }
    requires given { IsGivable request.now }
    requires caller { IsLawfulFor P.number (P.mounts places.now) pid state.old }
    requires resolved { AreResolved state.old.tree (P.mounts places.now) request.now targets.now }
    requires numbers { HasNumbers state.old }
    ensures performs { OperatesAt P.number (P.mounts places.now) pid request.now targets.now.first targets.now.second state.old state.new result.outcome }
    ensures served { result.outcome ≢ WantOfMemory → IsServed state.new }
    ensures told { result.outcome ≢ WantOfMemory → IsToldOf P.number (P.mounts places.now) pid request.now targets.now.first targets.now.second state.old result.altered }
{
    lawful_states_are_sound::<P::Mount, M>();
    let ahead = foretell(places, state, pid, request, targets);
    let outcome = perform(alloc, places, state, pid, request, targets);
    Carried {
        outcome,
        altered: where_answered(outcome, ahead),
    }
}

/// What stands in the memory of a process are bytes. It does nothing.
fn memory_holds_bytes<T: Copy, const M: u8>(state: &State<T, M>, pid: u32)
    requires { IsSound state.now }
    ensures { (p : Process T Image) → process pid (meaning state.now) ≡ Some p → HoldsBytes p.image.memory.pages }
{
    if let Some(k) = state.index_of(pid) {
        // For the proof alone: what is in a memory are bytes.
        let _can = state.living[k].mem.can(0, 0, Use::Read);
    }
}

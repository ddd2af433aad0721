//! A call as the kernel carries it out.
ghost use Rattle.std.specs.Prelude.{◌≡◌, ◌≢◌, ◌<◌, ◌^◌, ◌||◌, ℕ, suc, List, length, false, Ok, IfOk, OnOk};
ghost use Rattle.kr_calm.specs.kr_seen.Carrying.{memory_of};
ghost use Rattle.kr_turns.specs.Breaking.{nothing_reached, plain_rule, requested_rule, rule_told};
ghost use Rattle.kr_steps.specs.Calls.{CanBeMade, CanCall, IsAltered, IsNoExec, Runs, nothing_altered};
ghost use Rattle.kr_steps.specs.law_allowed.Texts.{IsText};
ghost use Rattle.kr_steps.specs.kr_model.Walks.{targets_of};
ghost use Rattle.kr_steps.specs.kr_model.declared.outcome.Outcome.TheVariants.{NoMemory as WantOfMemory};
ghost use Rattle.kr_hostview.specs.kr_ops.Meaning.{meaning};
ghost use Rattle.kr_hostview.specs.kr_ops.Sound.{IsSound, IsSoundFor};
ghost use Rattle.kr_calm.specs.kr_seen.CallWalks.{AreTargets};
ghost use Rattle.kr_calm.specs.kr_seen.Numbered.{state_numbered};
ghost use Rattle.kr_execve.specs.kr_tree.Lawful.{AreBytes};
ghost use Rattle.kr_steps.specs.Settling.{settled};
ghost use Rattle.kr_turns.specs.Coming.{came_to};
ghost use Rattle.std.specs.Option.{option_map, option_map_or};
ghost use Rattle.kr_execve.specs.kr_view.Leads.{numbered};
ghost use Rattle.kr_execve.specs.kr_view.View.{Row, is_root_place};
ghost use Rattle.kr_turns.specs.PlainCall.{child_of, end_of, executed, handed_on, leads_to_root, plain_call, plain_reach, refusal_told, request_reach, requested, status_told};
ghost use Rattle.kr_execve.specs.kr_calls.declared.request.Request.TheVariants.{Execve as ExecveRequest};

use crate::judging::{NOTHING, idle_rule, judge_call, look_ahead, rule_of};
use crate::target::target_of;
use kr_calm::Rule;
use kr_execve::below::{CallFault, Place, Places, Reach, Request, WalkFault};
use kr_execve::{Executed, execute};
use kr_hostview::below::{
    Errno, NoMemory, Outcome, State, Targets, lawful_states_are_sound, walk_paths,
};
use kr_steps::below::{Handed, NOTHING_HANDED};
use kr_steps::{Altered, answer, carry_out_along, request, resume, stay};
use std::alloc::Global;

/// The signal that kills a process which writes into a pipe that nobody reads.
const SIGPIPE: u8 = 13;

/// What became of the caller of a call.
#[derive(Clone, Copy)]
pub enum CallEnd {
    /// It was told an answer, and goes on behind the call.
    Answered,
    /// It begins a new program.
    Replaced,
    /// It stays at the call, which waits.
    Waits,
    /// It ended, with this status: its exit code, or 128 and the number of the signal that killed it.
    Ended(u8),
}

/// What a call came to.
#[derive(Clone, Copy)]
pub struct Plain {
    pub end: CallEnd,
    /// The number of the child that it made, if one.
    pub child: Option<u32>,
    /// What it hands to the second stop.
    pub handed: Handed,
    /// What its walks reached.
    pub reach: Reach,
    /// The smallest calm rule that it broke. Where marks aren't kept none is.
    pub broken: Option<Rule>,
    /// Whether the shape of the tree is another behind it, and the bytes of a file.
    pub altered: Altered,
}

/// Neither the shape nor bytes.
const NOTHING_ALTERED: Altered = Altered {
    shape: false,
    bytes: false,
};

/// Carries out the call at which a living process stands: what it asks for is decoded from its registers and its memory, its paths are
/// walked, its row is carried out or the new program is put in place, and the caller is told the answer where it goes on. `no_shelf`
/// tells that it has a path and no shelf. After want of memory the state may only be dropped.
pub fn plain_call<P: Places, const M: u8>(
    alloc: Global,
    places: &P,
    state: &mut State<P::Mount, M>,
    pid: u32,
    no_shelf: bool,
) -> Result<Plain, NoMemory>
    requires caller { CanCall P.number (P.mounts places.now) pid state.old }
    requires few_rows { length (P.mounts places.now) < 2 ^ 32 }
    ensures came { IfOk result (λ plain. came_to P.number state.new plain ≡ plain_call (P.mounts places.now) pid (state_numbered P.number (meaning state.old))) }
    ensures reach { IfOk result (λ plain. plain.reach ≡ plain_reach (P.mounts places.now) pid (state_numbered P.number (meaning state.old)) nothing_reached) }
    ensures rule { IfOk result (λ plain. plain.broken ≡ plain_rule M (P.mounts places.now) pid no_shelf (state_numbered P.number (meaning state.old))) }
    ensures runs { OnOk result ((calls : ℕ) → calls < 2 ^ 31 → Runs P.number (P.mounts places.now) calls state.old → Runs P.number (P.mounts places.now) (suc calls) state.new) }
    ensures altered { IfOk result (λ plain. IsAltered plain.altered state.old.tree state.new.tree) }
{
    lawful_states_are_sound::<P::Mount, M>();
    let request = match request(state, pid) {
        Ok(request) => request,
        Err(CallFault::Err(errno)) => return Ok(refuse(state, pid, errno, no_shelf, NOTHING)),
        Err(CallFault::NoMemory) => return Err(NoMemory),
    };
    carry_request(alloc, places, state, pid, &request, no_shelf)
}

/// Carries out what a living process asks for.
fn carry_request<P: Places, const M: u8>(
    alloc: Global,
    places: &P,
    state: &mut State<P::Mount, M>,
    pid: u32,
    request: &Request,
    no_shelf: bool,
) -> Result<Plain, NoMemory>
    requires request { CanBeMade request.now }
    requires caller { CanCall P.number (P.mounts places.now) pid state.old }
    requires few_rows { length (P.mounts places.now) < 2 ^ 32 }
    ensures came { IfOk result (λ plain. came_to P.number state.new plain ≡ requested (P.mounts places.now) pid request.now (state_numbered P.number (meaning state.old))) }
    ensures reach { IfOk result (λ plain. plain.reach ≡ request_reach (P.mounts places.now) pid request.now (state_numbered P.number (meaning state.old)) nothing_reached) }
    ensures rule { IfOk result (λ plain. plain.broken ≡ requested_rule M (P.mounts places.now) pid no_shelf request.now (state_numbered P.number (meaning state.old))) }
    ensures runs { OnOk result ((calls : ℕ) → calls < 2 ^ 31 → Runs P.number (P.mounts places.now) calls state.old → Runs P.number (P.mounts places.now) (suc calls) state.new) }
    ensures altered { IfOk result (λ plain. IsAltered plain.altered state.old.tree state.new.tree) }
{
    match request {
        Request::Execve { path, args, env } => {
            replace(
                alloc,
                places,
                state,
                pid,
                path.as_slice(),
                *args,
                *env,
                no_shelf,
            )
        }
        _ => operate(alloc, places, state, pid, request, no_shelf),
    }
}

/// Carries out an execve of a living process.
fn replace<P: Places, const M: u8>(
    alloc: Global,
    places: &P,
    state: &mut State<P::Mount, M>,
    pid: u32,
    path: &[u8],
    args: u64,
    env: u64,
    no_shelf: bool,
) -> Result<Plain, NoMemory>
    requires text { IsText path.now }
    requires bytes { AreBytes path.now }
    requires caller { CanCall P.number (P.mounts places.now) pid state.old }
    requires few_rows { length (P.mounts places.now) < 2 ^ 32 }
    ensures came { IfOk result (λ plain. came_to P.number state.new plain ≡ executed (P.mounts places.now) pid path.now args env (state_numbered P.number (meaning state.old))) }
    ensures reach { IfOk result (λ plain. plain.reach ≡ request_reach (P.mounts places.now) pid (ExecveRequest path.now args env) (state_numbered P.number (meaning state.old)) nothing_reached) }
    ensures rule { IfOk result (λ plain. plain.broken ≡ requested_rule M (P.mounts places.now) pid no_shelf (ExecveRequest path.now args env) (state_numbered P.number (meaning state.old))) }
    ensures runs { OnOk result ((calls : ℕ) → Runs P.number (P.mounts places.now) calls state.old → Runs P.number (P.mounts places.now) (suc calls) state.new) }
    ensures altered { IfOk result (λ plain. IsAltered plain.altered state.old.tree state.new.tree) }
{
    let mut reach = NOTHING;
    match execute(alloc, places, state, pid, path, args, env, &mut reach) {
        Executed::Replaced { marks_read } => {
            resume(state, pid);
            Ok(Plain {
                end: CallEnd::Replaced,
                child: None,
                handed: NOTHING_HANDED,
                reach,
                broken: rule_of::<M>(marks_read, no_shelf, false, None, &reach),
                altered: NOTHING_ALTERED,
            })
        }
        Executed::Refused(errno) => Ok(refuse(state, pid, errno, no_shelf, reach)),
        Executed::NoMemory => Err(NoMemory),
    }
}

/// Carries out another call of a living process.
fn operate<P: Places, const M: u8>(
    alloc: Global,
    places: &P,
    state: &mut State<P::Mount, M>,
    pid: u32,
    request: &Request,
    no_shelf: bool,
) -> Result<Plain, NoMemory>
    requires kind { IsNoExec request.now }
    requires request { CanBeMade request.now }
    requires caller { CanCall P.number (P.mounts places.now) pid state.old }
    requires few_rows { length (P.mounts places.now) < 2 ^ 32 }
    ensures came { IfOk result (λ plain. came_to P.number state.new plain ≡ requested (P.mounts places.now) pid request.now (state_numbered P.number (meaning state.old))) }
    ensures reach { IfOk result (λ plain. plain.reach ≡ request_reach (P.mounts places.now) pid request.now (state_numbered P.number (meaning state.old)) nothing_reached) }
    ensures rule { IfOk result (λ plain. plain.broken ≡ requested_rule M (P.mounts places.now) pid no_shelf request.now (state_numbered P.number (meaning state.old))) }
    ensures runs { OnOk result ((calls : ℕ) → calls < 2 ^ 31 → Runs P.number (P.mounts places.now) calls state.old → Runs P.number (P.mounts places.now) (suc calls) state.new) }
    ensures altered { IfOk result (λ plain. IsAltered plain.altered state.old.tree state.new.tree) }
{
    let mut reach = NOTHING;
    let targets = match walk_paths(alloc, places, state, pid, request, &mut reach) {
        Ok(targets) => targets,
        Err(WalkFault::Err(errno)) => return Ok(refuse(state, pid, errno, no_shelf, reach)),
        Err(WalkFault::NoMemory) => return Err(NoMemory),
    };
    let handed = handed_on(places, state, pid, request, &targets);
    let next = state.next_pid;
    let ahead = look_ahead(places, state, pid, request, &targets);
    let carried = carry_out_along(alloc, places, state, pid, request, &targets);
    let child = child_of(next, request, carried.outcome);
    let broken = judge_call(state, pid, ahead, no_shelf, &reach, carried.outcome);
    let end = settle(state, pid, request, carried.outcome)?;
    Ok(Plain {
        end,
        child,
        handed,
        reach,
        broken,
        altered: carried.altered,
    })
}

/// Tells a living process that its call is refused, whose walks reached so much.
fn refuse<T: Copy, const M: u8>(
    state: &mut State<T, M>,
    pid: u32,
    errno: Errno,
    no_shelf: bool,
    reach: Reach,
) -> Plain
    requires { IsSound state.old }
    ensures reach { result.reach ≡ reach }
    ensures rule { result.broken ≡ rule_told M ((memory_of pid (meaning state.old)).read_marked || no_shelf) false None reach }
    ensures came { (number : T → ℕ) → came_to number state.new result ≡ refusal_told pid errno (state_numbered number (meaning state.old)) }
    ensures runs { (number : T → ℕ) (table : List Row) (calls : ℕ) → Runs number table calls state.old → Runs number table calls state.new }
    ensures tree { state.new.tree ≡ state.old.tree }
    ensures altered { result.altered ≡ nothing_altered }
{
    let broken = idle_rule(state, pid, no_shelf, &reach);
    answer(state, pid, -i64::from(errno.number()));
    Plain {
        end: CallEnd::Answered,
        child: None,
        handed: NOTHING_HANDED,
        reach,
        broken,
        altered: NOTHING_ALTERED,
    }
}

/// Settles the caller of a call by its outcome.
fn settle<T: Copy, const M: u8>(
    state: &mut State<T, M>,
    pid: u32,
    request: &Request,
    outcome: Outcome,
) -> Result<CallEnd, NoMemory>
    requires { outcome ≢ WantOfMemory → IsSound state.old }
    ensures settles { OnOk result (meaning state.new ≡ settled pid outcome (meaning state.old)) }
    ensures end { IfOk result (λ end. end ≡ end_of request.now outcome) }
    ensures want { OnOk result (outcome ≢ WantOfMemory) }
    ensures runs { OnOk result ((number : T → ℕ) (table : List Row) (calls : ℕ) → Runs number table calls state.old → Runs number table calls state.new) }
{
    match outcome {
        Outcome::Answer(value) => {
            answer(state, pid, value);
            Ok(CallEnd::Answered)
        }
        Outcome::Wait => {
            stay(state, pid);
            Ok(CallEnd::Waits)
        }
        Outcome::Ended => Ok(CallEnd::Ended(status_told(request))),
        Outcome::NoMemory => Err(NoMemory),
    }
}

/// The status of a process whose call ended it.
fn status_told(request: &Request) -> u8
    ensures { result ≡ status_told request.now }
{
    match request {
        Request::Exit { code } | Request::ExitGroup { code } => code.rem_euclid(256) as u8,
        _ => 128 + SIGPIPE,
    }
}

/// The number of the child that a call made, if one; `next` is the next process's.
fn child_of(next: u32, request: &Request, outcome: Outcome) -> Option<u32>
    ensures { result ≡ child_of next request.now outcome }
{
    match (request, outcome) {
        (Request::Clone { .. }, Outcome::Answer(value)) if 0 <= value => Some(next),
        _ => None,
    }
}

/// What a call hands to its second stop.
fn handed_on<P: Places, const M: u8>(
    places: &P,
    state: &State<P::Mount, M>,
    pid: u32,
    request: &Request,
    targets: &Targets<P::Mount>,
) -> Handed
    requires { IsSoundFor pid state.now }
    ensures { (answer : _) → AreTargets P.number answer (Ok targets.now) → result ≡ handed_on (P.mounts places.now) pid request.now (state_numbered P.number (meaning state.now)) answer }
{
    Handed {
        at_root: leads_to_root(places, targets),
        target: target_of(state, pid, request, targets),
    }
}

/// Whether the first path of a call led to the root of the view.
fn leads_to_root<P: Places>(places: &P, targets: &Targets<P::Mount>) -> bool
    ensures { (answer : _) → AreTargets P.number answer (Ok targets.now) → result ≡ leads_to_root (P.mounts places.now) answer }
{
    match &targets.first {
        Some(target) => is_root_found(places, target.found),
        None => false,
    }
}

/// Whether what was found is the root.
fn is_root_found<P: Places>(places: &P, found: Option<Place<P::Mount>>) -> bool
    ensures { result ≡ option_map_or (is_root_place (P.mounts places.now)) (option_map (numbered P.number) found) false }
{
    match found {
        Some(place) => {
            let root = places.root();
            places.same(place.mount, root.mount) && place.host == root.host
        }
        None => false,
    }
}

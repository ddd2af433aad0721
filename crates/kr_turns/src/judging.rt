//! Which calm rule a turn broke, where marks are kept.
ghost use Rattle.std.specs.Prelude.{◌≡◌, ◌≢◌, ◌||◌, ℕ, List, Ok, Some, false, IsSome};
ghost use Rattle.kr_calm.specs.Questions.{HaveFewPoints};
ghost use Rattle.kr_steps.specs.kr_model.declared.outcome.Outcome.TheVariants.{NoMemory as WantOfMemory};
ghost use Rattle.kr_steps.specs.law_allowed.Told.{mounts_walked};
ghost use Rattle.kr_calm.specs.kr_seen.Carrying.{after_row, memory_of};
ghost use Rattle.kr_execve.specs.kr_calls.declared.request.Request.{Request as AnyRequest};
ghost use Rattle.kr_steps.specs.kr_model.State as model;
ghost use Rattle.kr_steps.specs.kr_model.Walks.{targets_of};
ghost use Rattle.kr_calm.specs.kr_seen.CallWalks.{AreTargets};
ghost use Rattle.kr_calm.specs.kr_seen.Numbered.{state_numbered};
ghost use Rattle.kr_turns.specs.Looking.{IsAhead, judged, read_told};
ghost use Rattle.kr_turns.specs.Noting.{IsNotedOrSame};
ghost use Rattle.kr_turns.specs.PlainCall.{row_on};
ghost use Rattle.kr_execve.specs.kr_view.View.{Row};
ghost use Rattle.kr_hostview.specs.kr_ops.Meaning.{meaning};
ghost use Rattle.kr_hostview.specs.kr_ops.Sound.{IsServed, IsSound, IsSoundFor};
ghost use Rattle.kr_turns.specs.Breaking.{ending_rule, last_rule, nothing_reached, rule_told};

use kr_calm::{
    Foreseen, Rule, crosses, end_takes_used, foresee, judge, note_list, reaches_too_far,
};
use kr_execve::below::{Places, Reach, Request};
use kr_execve::marks_read;
use kr_hostview::below::{Outcome, State, Targets};

/// Nothing was reached.
pub(crate) const NOTHING: Reach = Reach {
    longest: 0,
    met_proc: false,
};

/// The smallest rule that is broken: by whether a marked byte was read, or there was no shelf; by whether the second is; by the smallest
/// of those on what was really changed; and by what walks reached.
pub(crate) fn rule_of<const M: u8>(
    read: bool,
    no_shelf: bool,
    second: bool,
    changed: Option<Rule>,
    reach: &Reach,
) -> Option<Rule>
    ensures { result ≡ rule_told M (read || no_shelf) second changed reach.now }
{
    if M == 0 {
        return None;
    }
    if read {
        return Some(Rule::Unread);
    }
    if no_shelf {
        return Some(Rule::Unread);
    }
    if second {
        return Some(Rule::WithinMounts);
    }
    match changed {
        Some(rule) => Some(rule),
        None => last_rule(reach),
    }
}

/// The last rule, if it is broken.
fn last_rule(reach: &Reach) -> Option<Rule>
    ensures { result ≡ last_rule reach.now }
{
    if reaches_too_far(reach) {
        Some(Rule::ShortNames)
    } else {
        None
    }
}

/// What is known of a call before it is carried out, by which it is judged.
#[derive(Clone, Copy)]
pub(crate) struct Ahead {
    /// Whether it leads from mount to mount, or out of or into what is bound (rule 2).
    crosses: bool,
    /// What it would break of the rules on what is really changed, if it answered 0.
    foreseen: Foreseen,
    /// Whether a marked byte of the caller's memory was read, if the call ends its caller.
    read: bool,
}

/// Looks ahead at a call of a living process whose paths lead to these targets; where marks aren't kept there is nothing to look for. What
/// a call reads before it ends its caller is noted here already, since the memory is gone afterwards.
pub(crate) fn look_ahead<P: Places, const M: u8>(
    places: &P,
    state: &mut State<P::Mount, M>,
    pid: u32,
    request: &Request,
    targets: &Targets<P::Mount>,
) -> Option<Ahead>
    requires mounts { HaveFewPoints (P.mounts places.now) }
    requires caller { IsSoundFor pid state.old }
    requires along { AreTargets P.number (targets_of (P.mounts places.now) pid (state_numbered P.number (meaning state.old)) request.now) (Ok targets.now) }
    ensures ahead { IsAhead M (P.mounts places.now) pid request.now (state_numbered P.number (meaning state.old)) result }
    ensures noted { IsNotedOrSame pid request.now state.old state.new }
{
    if M == 0 {
        return None;
    }
    let crosses = crosses(places, &state.tree, request, targets);
    let foreseen = foresee(places, state, pid, request, targets);
    note_list(state, pid, request);
    let read = marks_read(state, pid);
    Some(Ahead {
        crosses,
        foreseen,
        read,
    })
}

/// The rule that a call broke, by what was known of it before, what it came to, and the state that it left; its walks reached so much.
pub(crate) fn judge_call<T: Copy, const M: u8>(
    state: &State<T, M>,
    pid: u32,
    ahead: Option<Ahead>,
    no_shelf: bool,
    reach: &Reach,
    outcome: Outcome,
) -> Option<Rule>
    requires { outcome ≢ WantOfMemory → IsSound state.now }
    ensures { outcome ≢ WantOfMemory → (number : T → ℕ) (table : List Row) (request : AnyRequest) (before : model.State ℕ model.Image) →
        IsAhead M table pid request before ahead → IsSome (model.process pid before) → outcome ≡ (row_on table pid request before).reply.outcome
        → state_numbered number (meaning state.now) ≡ after_row (mounts_walked (targets_of table pid before request)) pid (row_on table pid request before) before
        → result ≡ judged M table pid request before no_shelf reach.now }
{
    match ahead {
        Some(ahead) => judge_ahead(state, pid, &ahead, no_shelf, reach, outcome),
        None => None,
    }
}

/// The rule that a call broke on a machine that keeps marks.
fn judge_ahead<T: Copy, const M: u8>(
    state: &State<T, M>,
    pid: u32,
    ahead: &Ahead,
    no_shelf: bool,
    reach: &Reach,
    outcome: Outcome,
) -> Option<Rule>
    requires { outcome ≢ WantOfMemory → IsSound state.now }
    ensures { outcome ≢ WantOfMemory → (number : T → ℕ) (table : List Row) (request : AnyRequest) (before : model.State ℕ model.Image) →
        IsAhead M table pid request before (Some ahead.now) → IsSome (model.process pid before) → outcome ≡ (row_on table pid request before).reply.outcome
        → state_numbered number (meaning state.now) ≡ after_row (mounts_walked (targets_of table pid before request)) pid (row_on table pid request before) before
        → result ≡ judged M table pid request before no_shelf reach.now }
{
    let read = was_read(state, pid, ahead.read, outcome);
    let changed = judge(state, pid, &ahead.foreseen, outcome);
    rule_of::<M>(read, no_shelf, ahead.crosses, changed, reach)
}

/// Whether a marked byte was read of the memory of a caller, by whether one was if the call ended it.
fn was_read<T: Copy, const M: u8>(
    state: &State<T, M>,
    pid: u32,
    before: bool,
    outcome: Outcome,
) -> bool
    requires { outcome ≢ WantOfMemory → IsSound state.now }
    ensures { result ≡ read_told outcome before (memory_of pid (meaning state.now)).read_marked }
{
    match outcome {
        Outcome::Answer(_) | Outcome::Wait => marks_read(state, pid),
        Outcome::Ended | Outcome::NoMemory => before,
    }
}

/// The rule that is broken where nothing was changed.
pub(crate) fn idle_rule<T: Copy, const M: u8>(
    state: &State<T, M>,
    pid: u32,
    no_shelf: bool,
    reach: &Reach,
) -> Option<Rule>
    requires { IsSound state.now }
    ensures { result ≡ rule_told M ((memory_of pid (meaning state.now)).read_marked || no_shelf) false None reach.now }
{
    if M == 0 {
        return None;
    }
    let read = marks_read(state, pid);
    rule_of::<M>(read, no_shelf, false, None, reach)
}

/// The rule that is broken where a process died of a signal, by whether a marked byte was read of its memory, which is gone.
pub(crate) fn killed_rule<T: Copy, const M: u8>(
    state: &State<T, M>,
    pid: u32,
    read: bool,
) -> Option<Rule>
    requires { IsServed state.now }
    ensures { result ≡ rule_told M (read || false) false (ending_rule pid (meaning state.now)) nothing_reached }
{
    if M == 0 {
        return None;
    }
    let changed = if end_takes_used(state, pid) {
        Some(Rule::UsedStay)
    } else {
        None
    };
    rule_of::<M>(read, false, false, changed, &NOTHING)
}

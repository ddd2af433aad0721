//! The rules on changes that a call broke.
ghost use Rattle.std.specs.Prelude.{◌≡◌, ◌≢◌, ℕ, List};
ghost use Rattle.kr_seen.specs.kr_calls.declared.request.Request.{Request as AnyRequest};
ghost use Rattle.kr_seen.specs.kr_view.View.{Row};
ghost use Rattle.kr_seen.specs.kr_model.Applied.{Mounts};
ghost use Rattle.kr_seen.specs.kr_model.State as model;
ghost use Rattle.kr_seen.specs.kr_model.declared.outcome.Outcome.TheVariants.{NoMemory as WantOfMemory};
ghost use Rattle.kr_seen.specs.kr_ops.Meaning.{meaning};
ghost use Rattle.kr_seen.specs.kr_ops.Sound.{IsServed};
ghost use Rattle.kr_seen.specs.Numbered.{state_numbered};
ghost use Rattle.kr_seen.specs.Carrying.{after_row, with_memory_of};
ghost use Rattle.kr_calm.specs.Calm.{broken_by_changes};
ghost use Rattle.kr_calm.specs.Foreseen.{broken_as_foreseen, call_done, call_foreseen};

use crate::foreseeing::Foreseen;
use crate::judging::end_takes_used;
use crate::rule::Rule;
use kr_seen::below::{Outcome, Right, State};

/// The smallest of the rules that a call broke which answered 0, by what was foreseen of it and the state that it left.
fn judge_done<T: Copy, const M: u8>(state: &State<T, M>, foreseen: &Foreseen) -> Option<Rule>
    ensures { result ≡ broken_as_foreseen foreseen.now state.now.tree state.now.user }
{
    if foreseen.takes_source {
        return Some(Rule::SourcesStay);
    }
    if foreseen.takes_used {
        return Some(Rule::UsedStay);
    }
    match foreseen.shutting {
        Some(ino) => {
            if state.tree.may(state.user, ino, Right::Search) {
                None
            } else {
                Some(Rule::SearchStays)
            }
        }
        None => None,
    }
}

/// The smallest of the rules on changes that a call broke, by what was foreseen of it before, what it came to, and the state that it
/// left.
pub fn judge<T: Copy, const M: u8>(
    state: &State<T, M>,
    pid: u32,
    foreseen: &Foreseen,
    outcome: Outcome,
) -> Option<Rule>
    requires { outcome ≢ WantOfMemory → IsServed state.now }
    ensures { (number : T → ℕ) (table : List Row) (mounts : Mounts ℕ) (request : AnyRequest) (before : model.State ℕ model.Image) →
        let done = call_done table pid request before in
        foreseen.now ≡ call_foreseen table pid request before → outcome ≡ done.reply.outcome
        → state_numbered number (meaning state.now) ≡ after_row mounts pid done before
        → result ≡ broken_by_changes table mounts pid done.reply.changes (with_memory_of pid done.memory before) }
{
    match outcome {
        Outcome::Ended => {
            if end_takes_used(state, pid) {
                Some(Rule::UsedStay)
            } else {
                None
            }
        }
        Outcome::Answer(value) => {
            if value == 0 {
                judge_done(state, foreseen)
            } else {
                None
            }
        }
        Outcome::Wait | Outcome::NoMemory => None,
    }
}

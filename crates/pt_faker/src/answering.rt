//! Calls on users and groups, which are answered in place of the kernel.
ghost use Rattle.std.specs.Prelude.{◌≡◌, IfOk};
ghost use Rattle.pt_faker.specs.Stopping.{OnlyEdits};
ghost use Rattle.pt_ident.specs.Identity.{effect};
ghost use Rattle.pt_faker.specs.Carrying.{AnswersAny};

use crate::asking::{group_list, number_places};
use crate::memory::{take_groups, tell_groups, tell_numbers};
use elf_load::below::pr_base::NoMemory;
use kr_stops::Tracee;
use pt_ident::below::kr_calls::Request;
use pt_ident::{IdAnswer, Ids, answer};
use std::alloc::Global;

/// Answers a call on users and groups for the process whose identity is given, keeps what it sets, and reads and writes its lists and
/// addresses. `None`, and nothing is done, exactly for any other request. After want of memory both may only be dropped.
pub fn answer_call<T: Tracee>(
    alloc: Global,
    t: &mut T,
    ids: &mut Ids,
    request: &Request,
) -> Result<Option<i64>, NoMemory>
    ensures answers { IfOk result (λ told. AnswersAny ids.old (effect ids.old request.now) told ids.new (T.stopped t.old) (T.stopped t.new)) }
    ensures edits { OnlyEdits T.stopped T.around t.old t.new }
{
    // For the proof alone: the process lives.
    let _pid = t.pid();
    match answer(ids, request) {
        None => Ok(None),
        Some(IdAnswer::Value(number)) => Ok(Some(number)),
        Some(IdAnswer::Three(numbers)) => {
            let Some(places) = number_places(request) else {
                unreachable!();
            };
            let [real, effective, saved] = places;
            let told = tell_numbers(t, numbers, real, effective, saved)?;
            Ok(Some(told))
        }
        Some(IdAnswer::Groups) => {
            let Some(list) = group_list(request) else {
                unreachable!();
            };
            let told = tell_groups(alloc, t, ids.groups(), list.at)?;
            Ok(Some(told))
        }
        Some(IdAnswer::SetGroups) => {
            let Some(list) = group_list(request) else {
                unreachable!();
            };
            let told = take_groups(alloc, t, ids, list.count, list.at)?;
            Ok(Some(told))
        }
    }
}

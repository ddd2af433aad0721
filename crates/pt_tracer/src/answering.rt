//! Calls on users and groups, where processes believe in identities of their own.
ghost use Rattle.std.specs.Prelude.{◌≡◌, IfOk};
ghost use Rattle.pt_faker.specs.Stopping.{OnlyEdits};
ghost use Rattle.pt_tracer.specs.Answering.{AnswersBy, AnswersFaked};

use pt_faker::below::{Identities, NoMemory};
use pt_faker::{Tracee, answer_call};
use pt_results::below::Request;
use std::alloc::Global;

/// Answers a call on users and groups in place of the kernel, where there are identities. `None`, and nothing is done, exactly for any
/// other call. After want of memory both may only be dropped.
pub(crate) fn answer_faked<T: Tracee>(
    alloc: Global,
    t: &mut T,
    identities: &mut Option<Identities>,
    request: &Request,
) -> Result<Option<i64>, NoMemory>
    ensures answers { IfOk result (λ told. AnswersFaked identities.old request.now told identities.new (T.stopped t.old) (T.stopped t.new)) }
    ensures edits { OnlyEdits T.stopped T.around t.old t.new }
{
    // For the proof alone: the process lives.
    let _pid = t.pid();
    match identities {
        Some(table) => answer_by(alloc, t, table, request),
        None => Ok(None),
    }
}

/// Answers a call on users and groups by the identities that there are.
fn answer_by<T: Tracee>(
    alloc: Global,
    t: &mut T,
    table: &mut Identities,
    request: &Request,
) -> Result<Option<i64>, NoMemory>
    ensures answers { IfOk result (λ told. AnswersBy table.old request.now told table.new (T.stopped t.old) (T.stopped t.new)) }
    ensures edits { OnlyEdits T.stopped T.around t.old t.new }
{
    let pid = t.pid();
    let mut ids = table.take(pid)?;
    let told = answer_call(alloc, t, &mut ids, request)?;
    table.keep(pid, ids)?;
    Ok(told)
}

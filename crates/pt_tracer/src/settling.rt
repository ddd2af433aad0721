//! The second stop of a call.
ghost use Rattle.std.specs.Prelude.{◌≡◌, OnOk, Some};
ghost use Rattle.pt_faker.specs.Stopping.{register_at, OnlyEdits};
ghost use Rattle.pt_faker.specs.Faking.{due_of, remembered_of};
ghost use Rattle.pt_faker.specs.pt_ident.IdentityTable.{starts_as_root};
ghost use Rattle.law_steady.specs.pt_bind.Tags.{with_tag};
ghost use Rattle.law_steady.specs.pt_bind.declared.slot.Slot.TheVariants.{Exe};
ghost use Rattle.pt_results.specs.Notes.{noted, tags_after};
ghost use Rattle.pt_tracer.specs.Answering.{BeginsAs, BeginsBy};
ghost use Rattle.pt_tracer.specs.Watched.{answer_at, has_begun, is_execve, remembered_in, returned, shown_due, shown_to};

use crate::pending::Pending;
use crate::registers::{A0, set};
use pt_faker::below::{Identities, NoMemory, User};
use pt_faker::memory::show_owner;
use pt_faker::registers::{STACK, forgive, has_answered_zero};
use pt_faker::remembering::remember;
use pt_faker::{Due, Tracee, due_of, show_identity};
use pt_results::below::{Request, Tags};
use pt_results::note_result;

/// Whether a new program has begun in place of the caller's.
pub(crate) fn has_begun<T: Tracee>(call: &Pending, t: &T) -> bool
    ensures { result ≡ has_begun call.now (T.stopped t.now) }
{
    is_execve(&call.request) && call.answer.is_none() && has_answered_zero(t)
}

fn is_execve(request: &Request) -> bool
    ensures { result ≡ is_execve request.now }
{
    match request {
        Request::Execve { .. } => true,
        _ => false,
    }
}

/// The executable of a process that begins a new program has the tag of its file, and the process is told who it is. After want of memory
/// all of it may only be dropped.
pub(crate) fn begin<T: Tracee>(
    t: &mut T,
    tags: &mut Tags,
    identities: &mut Option<Identities>,
    index: u32,
) -> Result<(), NoMemory>
    ensures tags { OnOk result (tags.new ≡ with_tag tags.old (T.stopped t.old).pid Exe index) }
    ensures begins { OnOk result (BeginsAs identities.old (T.stopped t.old) identities.new (T.stopped t.new)) }
    ensures edits { OnlyEdits T.stopped T.around t.old t.new }
{
    let pid = t.pid();
    tags.set_exe(pid, index)?;
    match identities {
        Some(table) => begin_by(t, table),
        None => Ok(()),
    }
}

/// The effective numbers of a process that begins a new program are saved, and stand in its auxiliary vector.
fn begin_by<T: Tracee>(t: &mut T, table: &mut Identities) -> Result<(), NoMemory>
    ensures begins { OnOk result (BeginsBy table.old (T.stopped t.old) table.new (T.stopped t.new)) }
    ensures edits { OnlyEdits T.stopped T.around t.old t.new }
{
    let pid = t.pid();
    let mut ids = table.take(pid)?;
    ids.after_exec();
    let stack = t.reg(STACK);
    show_identity(t, &ids, stack)?;
    table.keep(pid, ids)?;
    Ok(())
}

/// Gives a caller its registers back with the answer and notes the tags of what the call made. Where there are identities it shows the host
/// user as another, and remembers what the call said of an owner or a mode. After want of memory all of it may only be dropped.
pub(crate) fn give_back<T: Tracee>(
    t: &mut T,
    tags: &mut Tags,
    user: User,
    identities: &mut Option<Identities>,
    call: &Pending,
) -> Result<(), NoMemory>
    ensures tags { OnOk result (tags.new ≡ tags_after tags.old (T.stopped t.old).pid (noted call.now.request call.now.led.index (answer_at (returned call.now (T.stopped t.old))))) }
    ensures shown { OnOk result (T.stopped t.new ≡ shown_to user identities.old call.now (returned call.now (T.stopped t.old))) }
    ensures remembers { OnOk result (identities.new ≡ remembered_in identities.old call.now (T.stopped t.old).handed.target (register_at (T.stopped t.new) 10)) }
    ensures edits { OnlyEdits T.stopped T.around t.old t.new }
{
    let pid = t.pid();
    let target = t.target();
    return_registers(t, call);
    let answer = t.reg(A0).cast_signed();
    note_result(tags, pid, &call.request, call.led.index, answer)?;
    match identities {
        Some(table) => settle_due(t, user, table, call, target),
        None => Ok(()),
    }
}

/// The registers are as before the first stop, and the answer is told.
fn return_registers<T: Tracee>(t: &mut T, call: &Pending)
    ensures returned { T.stopped t.new ≡ returned call.now (T.stopped t.old) }
    ensures edits { OnlyEdits T.stopped T.around t.old t.new }
{
    // For the proof alone: the process lives.
    let _pid = t.pid();
    call.passed.give_back(t);
    match call.answer {
        Some(answer) => set(t, A0, answer.cast_unsigned()),
        None => {}
    }
}

/// What is edited of an answer for whoever believes in another identity, and what is remembered of it.
fn settle_due<T: Tracee>(
    t: &mut T,
    user: User,
    table: &mut Identities,
    call: &Pending,
    target: Option<u64>,
) -> Result<(), NoMemory>
    ensures shown { OnOk result (T.stopped t.new ≡ shown_to user (Some table.old) call.now (T.stopped t.old)) }
    ensures remembers { OnOk result (table.new ≡ remembered_of (due_of (starts_as_root table.old) call.now.request) target (register_at (T.stopped t.new) 10) table.old) }
    ensures edits { OnlyEdits T.stopped T.around t.old t.new }
{
    // For the proof alone: the process lives.
    let _pid = t.pid();
    match due_of(table.starts_as_root(), &call.request) {
        Some(due) => {
            show(t, user, table, call.led.at_root, due)?;
            remember_due(table, due, target, t.reg(A0))
        }
        None => Ok(()),
    }
}

/// What is remembered of an answer by what is due.
fn remember_due(
    table: &mut Identities,
    due: Due,
    target: Option<u64>,
    answer: u64,
) -> Result<(), NoMemory>
    ensures { OnOk result (table.new ≡ remembered_of (Some due) target answer table.old) }
{
    match due {
        Due::Remembers { change } => remember(table, change, target, answer),
        Due::Tells { .. } | Due::ForgivesRoot | Due::ShowsOwner { .. } | Due::BeginsProgram => Ok(
            (),
        ),
    }
}

/// What is edited of an answer by what is due.
fn show<T: Tracee>(
    t: &mut T,
    user: User,
    table: &Identities,
    at_root: bool,
    due: Due,
) -> Result<(), NoMemory>
    ensures shown { OnOk result (T.stopped t.new ≡ shown_due user table.now at_root (Some due) (T.stopped t.old)) }
    ensures edits { OnlyEdits T.stopped T.around t.old t.new }
{
    // For the proof alone: the process lives.
    let _pid = t.pid();
    match due {
        Due::Remembers { .. } => {
            forgive(t, true);
            Ok(())
        }
        Due::ForgivesRoot => {
            forgive(t, at_root);
            Ok(())
        }
        Due::ShowsOwner { at } if has_answered_zero(t) => show_owner(t, user, table, at),
        Due::ShowsOwner { .. } | Due::Tells { .. } | Due::BeginsProgram => Ok(()),
    }
}

//! What a tracer makes of a call that could be read.
ghost use Rattle.std.specs.Prelude.{◌≡◌, ◌≤◌, IsTrue, IfOk, OnOk, length};
ghost use Rattle.law_steady.specs.pt_bind.Binding.{rows_of};
ghost use Rattle.pt_results.specs.pt_canon.Canon.{IsAnswer, IsWalkNoted};
ghost use Rattle.pt_results.specs.pt_canon.Leaving.{OnlyPeeks};
ghost use Rattle.pt_script.specs.Expanding.{expanded_at, expanded_unmet};
ghost use Rattle.pt_faker.specs.Stopping.{OnlyEdits, lent};
ghost use Rattle.pt_results.specs.pt_args.Edits.{first_of};
ghost use Rattle.pt_results.specs.pt_args.Plans.{plan_unmet};
ghost use Rattle.pt_faker.specs.kr_stops.Remembering.{AgreesAt};
ghost use Rattle.pt_tracer.specs.Agreeing.{AgreesWith, WalksAt};
ghost use Rattle.pt_tracer.specs.Planning.{answered, answered_unmet, cancelled, execve_plan, execve_unmet, expand_with, has_shelf, is_swap, led_at, led_in, led_reached, led_to, list_addresses, plan_for, plan_for_unmet, planned, planned_unmet, rewritten, script_plan, stack_at, texts_at};

use crate::plan::{Led, NOWHERE, Plan};
use crate::script::script_edit;
use pt_faker::below::{Errno, NoMemory, SHELF, Use};
use pt_faker::registers::STACK;
use pt_faker::{Handed, Tracee, addresses_behind, read_lists};
use pt_results::below::{
    CallFault, Edit, Reached, Request, Rewritten, Tags, WalkErr, Walker, edits_keep_to_paths,
    path_of, rewrite_along,
};
use pt_results::{cwd_answer, link_answer};
use pt_script::{Expanded, expand};
use std::alloc::Global;

/// Whether each of the 65,536 bytes below the stack pointer may be read and written.
fn has_shelf<T: Tracee>(t: &T) -> bool
    ensures shelf { result ≡ has_shelf (T.stopped t.now) }
    ensures room { IsTrue result → 65536 ≤ stack_at (T.stopped t.now) }
{
    match t.reg(STACK).checked_sub(SHELF) {
        Some(at) => t.can(at, SHELF, Use::Read) && t.can(at, SHELF, Use::Write),
        None => false,
    }
}

/// What a call is planned by: the call, and the tags of all processes.
#[derive(Clone, Copy)]
pub(crate) struct Planner<'a> {
    pub(crate) alloc: Global,
    pub(crate) tags: &'a Tags,
    pub(crate) request: &'a Request,
}

impl<'a> Planner<'a> {
    /// What becomes of a call. Of execve(2) both lists are read before that is known. After want of memory the process may only be dropped.
    pub(crate) fn plan<T: Tracee>(&self, t: &mut T, walker: &mut Walker) -> Result<Plan, NoMemory>
        requires agrees { AgreesAt AgreesWith walker.old (T.stopped t.old) }
        ensures plan { IfOk result (λ plan. (plan, T.stopped t.new) ≡ planned (rows_of walker.old.table) self.now.tags.now (T.stopped t.old) self.now.request.now) }
        ensures walker { WalksAt (T.stopped t.old) walker.old walker.new }
        ensures noted { OnOk result (T.unmet t.new ≡ planned_unmet (rows_of walker.old.table) self.now.tags.now (T.stopped t.old) self.now.request.now (T.unmet t.old)) }
        ensures edits { OnlyEdits T.stopped (lent T.around) t.old t.new }
    {
        // For the proof alone: the process lives.
        let _pid = t.pid();
        let Some(lists) = list_addresses(self.request) else {
            return self.plan_for(t, walker);
        };
        let Some(path) = path_of(self.request, 0) else {
            return self.plan_for(t, walker);
        };
        let planner = *self;
        let execve = ExecvePlanner {
            planner,
            path: path.text,
            lists,
        };
        execve.plan(t, walker)
    }

    /// What becomes of any call but execve(2).
    fn plan_for<T: Tracee>(&self, t: &mut T, walker: &mut Walker) -> Result<Plan, NoMemory>
        requires agrees { AgreesAt AgreesWith walker.old (T.stopped t.old) }
        ensures plan { IfOk result (λ plan. plan ≡ plan_for (texts_at (rows_of walker.old.table) self.now.tags.now (T.stopped t.old)) (T.stopped t.old) self.now.request.now) }
        ensures walker { WalksAt (T.stopped t.old) walker.old walker.new }
        ensures noted { OnOk result (T.unmet t.new ≡ plan_for_unmet (texts_at (rows_of walker.old.table) self.now.tags.now (T.stopped t.old)) (T.stopped t.old) self.now.request.now (T.unmet t.old)) }
        ensures process { OnlyPeeks T.stopped (lent T.around) t.old t.new }
    {
        if let Some(edit) = self.answered(t, walker)? {
            return Ok(Plan { edit, led: NOWHERE });
        }
        let Rewritten { edit, first } = self.rewritten(t, walker)?;
        let led = led_at(self.request, &first);
        Ok(Plan { edit, led })
    }

    /// The answer of getcwd(2), or of readlinkat(2) of a link of the process directory.
    fn answered<T: Tracee>(&self, t: &mut T, walker: &mut Walker) -> Result<Option<Edit>, NoMemory>
        requires agrees { AgreesAt AgreesWith walker.old (T.stopped t.old) }
        ensures edit { IfOk result (λ edit. edit ≡ answered (texts_at (rows_of walker.old.table) self.now.tags.now (T.stopped t.old)) (T.stopped t.old) self.now.request.now) }
        ensures walker { WalksAt (T.stopped t.old) walker.old walker.new }
        ensures noted { OnOk result (T.unmet t.new ≡ answered_unmet (texts_at (rows_of walker.old.table) self.now.tags.now (T.stopped t.old)) (T.stopped t.old) self.now.request.now (T.unmet t.old)) }
        ensures process { OnlyPeeks T.stopped (lent T.around) t.old t.new }
    {
        let pid = t.pid();
        match self.request {
            Request::Getcwd { buf, size } => {
                let edit = cwd_answer(self.alloc, t, walker, self.tags, pid, *size, *buf)?;
                Ok(Some(edit))
            }
            Request::Readlinkat { .. } => {
                link_answer(self.alloc, t, walker, self.tags, pid, self.request)
            }
            _ => Ok(None),
        }
    }

    /// A call whose guest paths become host paths, and where the first of them led.
    fn rewritten<T: Tracee>(&self, t: &mut T, walker: &mut Walker) -> Result<Rewritten, NoMemory>
        requires agrees { AgreesAt AgreesWith walker.old (T.stopped t.old) }
        ensures edit { IfOk result (λ r. r.edit ≡ rewritten (texts_at (rows_of walker.old.table) self.now.tags.now (T.stopped t.old)) (T.stopped t.old) self.now.request.now) }
        ensures first { IfOk result (λ r. r.first ≡ first_of (texts_at (rows_of walker.old.table) self.now.tags.now (T.stopped t.old)) (T.stopped t.old).pid self.now.request.now) }
        ensures room { IfOk result (λ r. IsTrue (is_swap r.edit) → 65536 ≤ stack_at (T.stopped t.old)) }
        ensures walker { WalksAt (T.stopped t.old) walker.old walker.new }
        ensures noted { OnOk result (T.unmet t.new ≡ plan_unmet (texts_at (rows_of walker.old.table) self.now.tags.now (T.stopped t.old)) (T.stopped t.old).pid self.now.request.now (T.unmet t.old)) }
        ensures process { OnlyPeeks T.stopped (lent T.around) t.old t.new }
    {
        // For the proof alone: the process lives.
        let _pid = t.pid();
        // The shelf is looked at only where there is a path to put on it.
        match path_of(self.request, 0) {
            Some(_path) => self.rewritten_along(t, walker),
            None => Ok(Rewritten {
                edit: Edit::Pass,
                first: None,
            }),
        }
    }

    /// A call that has a path: its guest paths become host paths, and it is told where the first of them led.
    fn rewritten_along<T: Tracee>(
        &self,
        t: &mut T,
        walker: &mut Walker,
    ) -> Result<Rewritten, NoMemory>
        requires agrees { AgreesAt AgreesWith walker.old (T.stopped t.old) }
        ensures edit { IfOk result (λ r. r.edit ≡ rewritten (texts_at (rows_of walker.old.table) self.now.tags.now (T.stopped t.old)) (T.stopped t.old) self.now.request.now) }
        ensures first { IfOk result (λ r. r.first ≡ first_of (texts_at (rows_of walker.old.table) self.now.tags.now (T.stopped t.old)) (T.stopped t.old).pid self.now.request.now) }
        ensures room { IfOk result (λ r. IsTrue (is_swap r.edit) → 65536 ≤ stack_at (T.stopped t.old)) }
        ensures walker { WalksAt (T.stopped t.old) walker.old walker.new }
        ensures noted { OnOk result (T.unmet t.new ≡ plan_unmet (texts_at (rows_of walker.old.table) self.now.tags.now (T.stopped t.old)) (T.stopped t.old).pid self.now.request.now (T.unmet t.old)) }
        ensures process { OnlyPeeks T.stopped (lent T.around) t.old t.new }
    {
        edits_keep_to_paths();
        let pid = t.pid();
        let sp = t.reg(STACK);
        let shelf = has_shelf(t);
        rewrite_along(
            self.alloc,
            t,
            walker,
            self.tags,
            pid,
            sp,
            shelf,
            self.request,
        )
    }
}

/// Where the first path of a call leads, if that counts.
fn led_at(request: &Request, first: &Option<Reached>) -> Led
    ensures { result ≡ led_at request.now first.now }
{
    match request {
        Request::Openat { .. }
        | Request::Chdir { .. }
        | Request::Chroot { .. }
        | Request::Execve { .. } => led_reached(first),
        _ => NOWHERE,
    }
}

fn led_reached(first: &Option<Reached>) -> Led
    ensures { result ≡ led_reached first.now }
{
    match first {
        Some(reached) => led_to(reached),
        None => NOWHERE,
    }
}

fn led_to(reached: &Reached) -> Led
    ensures { result ≡ led_to reached.now }
{
    Led {
        index: reached.canon.index,
        at_root: reached.canon.guest.as_slice() == b"/".as_slice(),
    }
}

/// Where execve(2) has its arguments and its environment.
#[derive(Clone, Copy)]
pub(crate) struct ListAddresses {
    args: u64,
    env: u64,
}

/// Where the lists of a call stand, if it is execve(2).
fn list_addresses(request: &Request) -> Option<ListAddresses>
    ensures { result ≡ list_addresses request.now }
{
    match *request {
        Request::Execve { args, env, .. } => Some(ListAddresses { args, env }),
        _ => None,
    }
}

/// What execve(2) is planned by: the call, its path, and where its lists stand.
#[derive(Clone, Copy)]
struct ExecvePlanner<'a> {
    planner: Planner<'a>,
    path: &'a [u8],
    lists: ListAddresses,
}

impl<'a> ExecvePlanner<'a> {
    /// What becomes of execve(2): where its path can be swapped its lists are read, and its scripts are expanded.
    fn plan<T: Tracee>(&self, t: &mut T, walker: &mut Walker) -> Result<Plan, NoMemory>
        requires agrees { AgreesAt AgreesWith walker.old (T.stopped t.old) }
        ensures plan { let planner = self.now.planner in
            IfOk result (λ plan. (plan, T.stopped t.new) ≡ execve_plan (rows_of walker.old.table) planner.tags.now (T.stopped t.old) planner.request.now self.now.path.now self.now.lists) }
        ensures walker { WalksAt (T.stopped t.old) walker.old walker.new }
        ensures noted { let planner = self.now.planner in
            OnOk result (T.unmet t.new ≡ execve_unmet (rows_of walker.old.table) planner.tags.now (T.stopped t.old) planner.request.now self.now.path.now self.now.lists (T.unmet t.old)) }
        ensures edits { OnlyEdits T.stopped (lent T.around) t.old t.new }
    {
        // For the proof alone: the process lives.
        let _pid = t.pid();
        let Rewritten { edit, first } = self.planner.rewritten(t, walker)?;
        if !is_swap(&edit) {
            return Ok(Plan { edit, led: NOWHERE });
        }
        let led = led_at(self.planner.request, &first);
        match read_lists(self.planner.alloc, t, self.lists.args, self.lists.env) {
            Ok(handed) => self.expand_with(t, walker, edit, handed),
            Err(CallFault::Err(_)) => Ok(Plan { edit, led }),
            Err(CallFault::NoMemory) => Err(NoMemory),
        }
    }

    /// What becomes of a program, once its lists were read: a script is shown as the program that runs it.
    fn expand_with<T: Tracee>(
        &self,
        t: &mut T,
        walker: &mut Walker,
        edit: Edit,
        handed: Handed,
    ) -> Result<Plan, NoMemory>
        requires room { 65536 ≤ stack_at (T.stopped t.old) }
        requires few { length handed.args ≤ 4096 }
        requires agrees { AgreesAt AgreesWith walker.old (T.stopped t.old) }
        ensures plan { let tags = self.now.planner.tags.now in
            IfOk result (λ plan. (plan, T.stopped t.new) ≡ expand_with (rows_of walker.old.table) tags edit self.now.path.now self.now.lists.args handed (T.stopped t.old)) }
        ensures walker { WalksAt (T.stopped t.old) walker.old walker.new }
        ensures noted { let texts = texts_at (rows_of walker.old.table) self.now.planner.tags.now (T.stopped t.old) in
            OnOk result (T.unmet t.new ≡ expanded_unmet texts (T.stopped t.old).pid handed.env_bytes self.now.path.now handed.args (T.unmet t.old)) }
        ensures edits { OnlyEdits T.stopped (lent T.around) t.old t.new }
    {
        // For the proof alone: the process lives.
        let _pid = t.pid();
        let kept = handed.args.len().saturating_sub(1);
        match self.expanded(t, walker, handed) {
            Ok(program) if program.scripts == 0 => Ok(Plan {
                edit,
                led: led_in(program.index),
            }),
            Ok(program) => self.plan_script(t, kept, program),
            Err(WalkErr::Err(errno)) => Ok(cancelled(errno)),
            Err(WalkErr::NoMemory) => Err(NoMemory),
        }
    }

    /// The program that runs in the end, and its arguments.
    fn expanded<T: Tracee>(
        &self,
        t: &mut T,
        walker: &mut Walker,
        handed: Handed,
    ) -> Result<Expanded, WalkErr>
        requires agrees { AgreesAt AgreesWith walker.old (T.stopped t.old) }
        ensures answer { let texts = texts_at (rows_of walker.old.table) self.now.planner.tags.now (T.stopped t.old) in
            IsAnswer (expanded_at texts (T.stopped t.old).pid handed.env_bytes self.now.path.now handed.args) result }
        ensures walker { WalksAt (T.stopped t.old) walker.old walker.new }
        ensures noted { let texts = texts_at (rows_of walker.old.table) self.now.planner.tags.now (T.stopped t.old) in
            IsWalkNoted (expanded_unmet texts (T.stopped t.old).pid handed.env_bytes self.now.path.now handed.args (T.unmet t.old)) (T.unmet t.new) result }
        ensures process { OnlyPeeks T.stopped (lent T.around) t.old t.new }
    {
        let pid = t.pid();
        let Handed { args, env_bytes } = handed;
        let planner = self.planner;
        expand(
            planner.alloc,
            t,
            walker,
            planner.tags,
            pid,
            self.path,
            args,
            env_bytes,
        )
    }

    /// What becomes of a script, where `kept` of its caller's arguments are kept.
    fn plan_script<T: Tracee>(
        &self,
        t: &mut T,
        kept: usize,
        program: Expanded,
    ) -> Result<Plan, NoMemory>
        requires room { 65536 ≤ stack_at (T.stopped t.old) }
        requires few { kept ≤ 4096 }
        ensures plan { IfOk result (λ plan. (plan, T.stopped t.new) ≡ script_plan (T.stopped t.old) self.now.lists.args kept program) }
        ensures edits { OnlyEdits T.stopped T.around t.old t.new }
    {
        // For the proof alone: the process lives.
        let _pid = t.pid();
        let alloc = self.planner.alloc;
        let sp = t.reg(STACK);
        let addresses = match addresses_behind(alloc, t, self.lists.args, kept) {
            Ok(addresses) => addresses,
            Err(CallFault::Err(errno)) => return Ok(cancelled(errno)),
            Err(CallFault::NoMemory) => return Err(NoMemory),
        };
        let Expanded {
            host,
            index,
            args,
            ..
        } = program;
        let edit = script_edit(alloc, sp, host, args, kept, addresses.as_slice())?;
        Ok(Plan {
            edit,
            led: led_in(index),
        })
    }
}

/// Whether a call is shown to the kernel with other texts.
fn is_swap(edit: &Edit) -> bool
    ensures { result ≡ is_swap edit.now }
{
    match edit {
        Edit::Swap { .. } => true,
        Edit::Pass | Edit::Cancel(_) | Edit::Emulate { .. } => false,
    }
}

/// A program that belongs to a binding of this index.
fn led_in(index: u32) -> Led
    ensures { result ≡ led_in index }
{
    Led {
        index,
        at_root: false,
    }
}

/// A call that answers an error.
fn cancelled(errno: Errno) -> Plan
    ensures { result ≡ cancelled errno }
{
    Plan {
        edit: Edit::Cancel(errno),
        led: NOWHERE,
    }
}

//! The tracer.
ghost use Rattle.std.specs.Prelude.{◌≡◌, OnOk, Some};
ghost use Rattle.pt_faker.specs.Stopping.{OnlyEdits, lent};
ghost use Rattle.pt_faker.specs.kr_stops.Remembering.{AgreesAt, FreesCaller, KeepsAllFree, KeepsOthersFree, StillAgrees};
ghost use Rattle.pt_tracer.specs.Agreeing.{WalksAt};
ghost use Rattle.pt_tracer.specs.Answering.{starting_identities};

use crate::answering::answer_faked;
use crate::apply::apply;
use crate::laws::tracer_is_its_definition;
use crate::pausing::PausingWalker;
use crate::pending::{Calls, Pending};
use crate::plan::{NOWHERE, Plan};
use crate::planning::Planner;
use crate::registers::Arguments;
use crate::settling::{begin, give_back, has_begun};
use pt_faker::below::{Identities, NoMemory, User};
use pt_faker::registers::take_number;
use pt_faker::{Graphed, Stops, Tracee};
use pt_results::below::{CallFault, Request, Tags, Walker};
use std::alloc::Global;
use std::marker::Model;

/// Shows each process another root, and what is bound into it, on a kernel that has neither. With an identity option each process
/// believes in an identity of its own, too. It remembers answers of its walks from stop to stop. After want of memory it may only be dropped.
#[derive(Drop)]
pub struct Tracer {
    alloc: Global,
    pausing: PausingWalker,
    tags: Tags,
    user: User,
    identities: Option<Identities>,
    calls: Calls,
}

impl Model for Tracer {
    ghost use Rattle.std.specs.Coded.{Coded, codes, coded_ℕ};
    ghost use Rattle.std.specs.FinMap as map;
    ghost use Rattle.std.specs.Ordering.{nat_cmp};
    ghost use Rattle.law_steady.specs.pt_bind.Binding.{rows_of};
    ghost use Rattle.law_steady.specs.pt_bind.Tags.{tag_table_code};
    ghost use Rattle.pt_faker.specs.pt_ident.IdentityTable.{table_code};
    ghost use Rattle.pt_tracer.specs.Keeping.{Keeping};
    ghost use Rattle.pt_tracer.specs.declared.pending.Pending.{Pending};

    ghost Value = { Keeping };

    ghost coded = { let pending_code : Coded Pending = Prim.hlevel codes in let calls_code : Coded (map.FinMap nat_cmp Pending) = map.code coded_ℕ pending_code in Prim.hlevel (codes, tag_table_code, table_code, calls_code) };

    ghost view = { λ t. record { tracing = record { bindings = rows_of t.pausing.walker.table; tags = t.tags; user = t.user; identities = t.identities; pending = t.calls }; pausing = t.pausing } };
}

impl Tracer {
    ghost use Rattle.pt_tracer.specs.Keeping.{KeepingAgrees, KeepingIsFree, starting_keeping};
    ghost use Rattle.pt_tracer.specs.Watched.{after_pending, born, by_identities, entered, entry_unmet, exited, gone, unmet_by_identities, without_pending};

    /// A tracer by a walker without a pause, and with the tags of the first process. With an identity option processes start as the user
    /// `ids.0` and the group `ids.1`, and what the host user owns is theirs. It takes no memory.
    pub fn new(
        alloc: Global,
        walker: Walker,
        tags: Tags,
        user: User,
        ids: Option<(u32, u32)>,
    ) -> Tracer
        requires unpaused { walker.pauses ≡ 0 }
        ensures { result ≡ starting_keeping walker tags user ids }
    {
        Tracer {
            alloc,
            pausing: PausingWalker::new(alloc, walker),
            tags,
            user,
            identities: starting_identities(alloc, ids),
            calls: Calls::new(alloc),
        }
    }

    /// The first stop, but for a pause.
    fn enter<T: Tracee>(&mut self, t: &mut T) -> Result<(), NoMemory>
        requires agrees { AgreesAt KeepingAgrees self.old (T.stopped t.old) }
        ensures enters { OnOk result ((self.new.tracing, T.stopped t.new) ≡ entered self.old.tracing (T.stopped t.old)) }
        ensures walks { OnOk result (WalksAt (T.stopped t.old) self.old.pausing.walker self.new.pausing.walker) }
        ensures pids { OnOk result (self.new.pausing.pids ≡ self.old.pausing.pids) }
        ensures noted { OnOk result (T.unmet t.new ≡ entry_unmet self.old.tracing (T.stopped t.old) (T.unmet t.old)) }
        ensures edits { OnlyEdits T.stopped (lent T.around) t.old t.new }
    {
        let pid = t.pid();
        match t.request() {
            Ok(request) => self.take_up(t, request),
            Err(CallFault::Err(_)) => {
                self.pass(pid);
                Ok(())
            }
            Err(CallFault::NoMemory) => Err(NoMemory),
        }
    }

    /// A call that can't be read is left to the kernel.
    fn pass(&mut self, pid: u32)
        ensures tracing { self.new.tracing ≡ without_pending pid self.old.tracing }
        ensures pausing { self.new.pausing ≡ self.old.pausing }
    {
        self.calls.forget(pid);
    }

    /// The first stop of a call that could be read: it is answered here, or shown to the kernel with host paths.
    fn take_up<T: Tracee>(&mut self, t: &mut T, request: Request) -> Result<(), NoMemory>
        requires agrees { AgreesAt KeepingAgrees self.old (T.stopped t.old) }
        ensures enters { OnOk result ((self.new.tracing, T.stopped t.new) ≡ by_identities self.old.tracing request (T.stopped t.old) self.old.tracing.identities) }
        ensures walks { OnOk result (WalksAt (T.stopped t.old) self.old.pausing.walker self.new.pausing.walker) }
        ensures pids { OnOk result (self.new.pausing.pids ≡ self.old.pausing.pids) }
        ensures noted { OnOk result (T.unmet t.new ≡ unmet_by_identities self.old.tracing request (T.stopped t.old) self.old.tracing.identities (T.unmet t.old)) }
        ensures edits { OnlyEdits T.stopped (lent T.around) t.old t.new }
    {
        let pid = t.pid();
        let passed = Arguments::of(t);
        match answer_faked(self.alloc, t, &mut self.identities, &request)? {
            Some(answer) => {
                let _number = take_number(t);
                let call = Pending {
                    passed,
                    request,
                    led: NOWHERE,
                    answer: Some(answer),
                };
                self.calls.keep(pid, call)
            }
            None => {
                let planner = Planner {
                    alloc: self.alloc,
                    tags: &self.tags,
                    request: &request,
                };
                let Plan { edit, led } = self.pausing.plan(&planner, t)?;
                let answer = apply(t, edit)?;
                let call = Pending {
                    passed,
                    request,
                    led,
                    answer,
                };
                self.calls.keep(pid, call)
            }
        }
    }

    /// The second stop, but for a pause.
    fn leave<T: Tracee>(&mut self, t: &mut T) -> Result<(), NoMemory>
        ensures exits { OnOk result ((self.new.tracing, T.stopped t.new) ≡ exited self.old.tracing (T.stopped t.old)) }
        ensures pausing { self.new.pausing ≡ self.old.pausing }
        ensures edits { OnlyEdits T.stopped T.around t.old t.new }
    {
        let pid = t.pid();
        match self.calls.take(pid) {
            Some(call) => self.settle(t, call),
            None => Ok(()),
        }
    }

    /// The second stop of a call.
    fn settle<T: Tracee>(&mut self, t: &mut T, call: Pending) -> Result<(), NoMemory>
        ensures exits { OnOk result ((self.new.tracing, T.stopped t.new) ≡ after_pending self.old.tracing (T.stopped t.old) (Some call)) }
        ensures pausing { self.new.pausing ≡ self.old.pausing }
        ensures edits { OnlyEdits T.stopped T.around t.old t.new }
    {
        // For the proof alone: the process lives.
        let _pid = t.pid();
        if has_begun(&call, t) {
            begin(t, &mut self.tags, &mut self.identities, call.led.index)
        } else {
            give_back(t, &mut self.tags, self.user, &mut self.identities, &call)
        }
    }

    /// A child has its parent's tags and identity.
    fn bear(&mut self, parent: u32, child: u32) -> Result<(), NoMemory>
        ensures bears { OnOk result (self.new.tracing ≡ born self.old.tracing parent child) }
        ensures pausing { self.new.pausing ≡ self.old.pausing }
    {
        self.tags.fork(parent, child)?;
        match &mut self.identities {
            Some(table) => {
                table.born(parent, child)?;
                Ok(())
            }
            None => Ok(()),
        }
    }

    /// Nothing is kept of a process that ended, but for a pause.
    fn forget(&mut self, pid: u32)
        ensures forgets { self.new.tracing ≡ gone self.old.tracing pid }
        ensures pausing { self.new.pausing ≡ self.old.pausing }
    {
        self.calls.forget(pid);
        self.tags.drop_pid(pid);
        match &mut self.identities {
            Some(table) => table.gone(pid),
            None => {}
        }
    }

    /// Pauses for a process that is about to make a call which can alter the tree.
    fn pause_at<T: Tracee>(&mut self, t: &T) -> Result<(), NoMemory>
        requires agrees { AgreesAt KeepingAgrees self.old (T.stopped t.now) }
        ensures tracing { OnOk result (self.new.tracing ≡ self.old.tracing) }
        ensures agrees { OnOk result (AgreesAt KeepingAgrees self.new (T.stopped t.now)) }
        ensures frees { OnOk result (FreesCaller KeepingIsFree (T.stopped t.now) self.new) }
        ensures others { OnOk result (KeepsAllFree KeepingIsFree self.old self.new) }
    {
        self.pausing.pause_at(t)
    }

    /// An earlier entry of a process may have left a pause. What would be forgotten at this stop needn't be remembered first.
    fn pause_anew<T: Tracee>(&mut self, t: &T, pid: u32) -> Result<(), NoMemory>
        requires agrees { AgreesAt KeepingAgrees self.old (T.stopped t.now) }
        ensures tracing { OnOk result (self.new.tracing ≡ self.old.tracing) }
        ensures agrees { OnOk result (AgreesAt KeepingAgrees self.new (T.stopped t.now)) }
        ensures others { OnOk result (KeepsOthersFree KeepingIsFree pid self.old self.new) }
    {
        self.resume_for(pid);
        self.pause_at(t)
    }

    /// Ends the pause for a process, if there is one.
    fn resume_for(&mut self, pid: u32)
        ensures tracing { self.new.tracing ≡ self.old.tracing }
        ensures agrees { StillAgrees KeepingAgrees self.old self.new }
        ensures others { KeepsOthersFree KeepingIsFree pid self.old self.new }
    {
        self.pausing.resume_for(pid);
    }
}

/// With an identity option no process has another identity than that in which it starts.
fn starting_identities(alloc: Global, ids: Option<(u32, u32)>) -> Option<Identities>
    ensures { result ≡ starting_identities ids }
{
    match ids {
        Some((uid, gid)) => Some(Identities::new(alloc, uid, gid)),
        None => None,
    }
}

impl Stops for Tracer {
    ghost use Rattle.pt_tracer.specs.AgreeingLaws.{lasts-with-shape, paused-agrees};
    ghost use Rattle.pt_tracer.specs.Keeping.{KeepingAgrees, KeepingIsFree};
    ghost use Rattle.pt_tracer.specs.Watched.{asks, born, entered, exited, gone};

    ghost enters = { λ x t y u. (y.tracing, u) ≡ entered x.tracing t };

    ghost exits = { λ x t y u. (y.tracing, u) ≡ exited x.tracing t };

    ghost bears = { λ x parent child y. y.tracing ≡ born x.tracing parent child };

    ghost forgets = { λ x pid y. y.tracing ≡ gone x.tracing pid };

    ghost asks = { λ x t. asks x.tracing t };

    ghost agrees = { KeepingAgrees };

    ghost is_free = { KeepingIsFree };

    fn entry<T: Tracee>(&mut self, t: &mut T) -> Result<(), NoMemory> {
        let pid = t.pid();
        self.pause_anew(t, pid)?;
        self.enter(t)?;
        self.pause_at(t)
    }

    fn exit<T: Tracee>(&mut self, t: &mut T) -> Result<(), NoMemory> {
        let pid = t.pid();
        self.resume_for(pid);
        self.leave(t)
    }

    fn born(&mut self, parent: u32, child: u32) -> Result<(), NoMemory> {
        self.bear(parent, child)
    }

    fn gone(&mut self, pid: u32) {
        self.resume_for(pid);
        self.forget(pid);
    }

    ghost free_agrees = { λ x pid free t user. paused-agrees x.pausing.walker t user free.stands };

    ghost lasts_with_shape = { λ x t u user sound shape before. lasts-with-shape x.pausing.walker t u user shape before };
}

impl Graphed for Tracer {
    ghost use Rattle.std.specs.Prelude.{refl};
    ghost use Rattle.pt_tracer.specs.Watched.{Tracing, asks, tracer};

    ghost Part = { Tracing };

    ghost part = { λ x. x.tracing };

    ghost does = { tracer };

    ghost asked = { asks };

    fn is_graph() {
        tracer_is_its_definition();
    }

    ghost asks_by_part = { λ x t. refl };
}

//! A watcher that gives each process an identity of its own.
ghost use Rattle.std.specs.Prelude.{◌≡◌, ◌%◌, OnOk};
ghost use Rattle.pt_faker.specs.Stopping.{OnlyEdits};
ghost use Rattle.pt_faker.specs.Faking.{due_of};
ghost use Rattle.pt_faker.specs.declared.due.Due.TheVariants.{BeginsProgram, Remembers, ShowsOwner};
ghost use Rattle.pt_ident.specs.Owners.{modes};
ghost use Rattle.pt_ident.specs.declared.change.Change.TheVariants.{Mode, Own};

use crate::answering::answer_call;
use crate::auxiliary::show_identity;
use crate::due::Due;
use crate::dues::Dues;
use crate::memory::show_owner;
use crate::registers::{ANSWER, STACK, forgive, has_answered_zero, take_number, tell};
use crate::remembering::remember;
use elf_load::below::pr_base::NoMemory;
use elf_load::below::pr_base::limits::MODES;
use kr_stops::{Stops, Tracee};
use pt_ident::below::kr_calls::{CallFault, Request};
use pt_ident::below::kr_inode::User;
use pt_ident::{Change, Identities};
use std::alloc::Global;
use std::marker::Model;

/// Gives each process an identity of its own, as which it also sees what the host user owns. After want of memory it may only be
/// dropped.
#[derive(Drop)]
pub struct Faker {
    alloc: Global,
    user: User,
    identities: Identities,
    dues: Dues,
}

impl Model for Faker {
    ghost use Rattle.std.specs.Coded.{Coded, codes, coded_ℕ};
    ghost use Rattle.std.specs.FinMap as map;
    ghost use Rattle.std.specs.Ordering.{nat_cmp};
    ghost use Rattle.pt_ident.specs.IdentityTable.{table_code};
    ghost use Rattle.pt_faker.specs.Faking.{Faking};
    ghost use Rattle.pt_faker.specs.declared.due.Due.{Due};

    ghost Value = { Faking };

    ghost coded = { let due_code : Coded Due = Prim.hlevel codes in let dues_code : Coded (map.FinMap nat_cmp Due) = map.code coded_ℕ due_code in Prim.hlevel (codes, table_code, dues_code) };

    ghost view = { λ f. record { user = f.user; identities = f.identities; dues = f.dues } };
}

impl Faker {
    ghost use Rattle.pt_ident.specs.Identity.{effect};
    ghost use Rattle.pt_ident.specs.IdentityTable.{identity_at};
    ghost use Rattle.pt_faker.specs.Faking.{after_due, after_effect, remember, starting_faking};

    /// Processes start as the user `ids.0` and the group `ids.1`; what the host user owns is theirs. It takes no memory.
    pub fn new(alloc: Global, user: User, ids: (u32, u32)) -> Faker
        ensures { result ≡ starting_faking user ids.0 ids.1 }
    {
        let (uid, gid) = ids;
        Faker {
            alloc,
            user,
            identities: Identities::new(alloc, uid, gid),
            dues: Dues::new(alloc),
        }
    }

    /// The first stop of a call that could be read: it is answered here, or left to the kernel.
    fn take_up<T: Tracee>(&mut self, t: &mut T, request: &Request) -> Result<(), NoMemory>
        ensures enters { OnOk result ((self.new, T.stopped t.new) ≡ after_effect self.old request.now (T.stopped t.old) (effect (identity_at self.old.identities (T.stopped t.old).pid) request.now)) }
        ensures edits { OnlyEdits T.stopped T.around t.old t.new }
    {
        let pid = t.pid();
        let mut ids = self.identities.take(pid)?;
        let told = answer_call(self.alloc, t, &mut ids, request)?;
        self.identities.keep(pid, ids)?;
        match told {
            None => {
                let root = self.identities.starts_as_root();
                self.dues.set(pid, due_of(root, request))
            }
            Some(answer) => {
                let number = take_number(t);
                self.dues.set(pid, Some(Due::Tells { number, answer }))
            }
        }
    }

    /// The second stop of a call of which something is due.
    fn settle<T: Tracee>(&mut self, t: &mut T, due: Due) -> Result<(), NoMemory>
        ensures exits { OnOk result ((self.new, T.stopped t.new) ≡ after_due self.old (T.stopped t.old) (Some due)) }
        ensures edits { OnlyEdits T.stopped T.around t.old t.new }
    {
        // For the proof alone: the process lives.
        let _pid = t.pid();
        match due {
            Due::Tells { number, answer } => {
                tell(t, number, answer);
                Ok(())
            }
            Due::Remembers { change } => self.remember(t, change),
            Due::ForgivesRoot => {
                let may = t.at_root();
                forgive(t, may);
                Ok(())
            }
            Due::ShowsOwner { at } => self.show_owner(t, at),
            Due::BeginsProgram => self.begin_program(t),
        }
    }

    /// An owner or a mode that a call sets: it seems to be set where the host refuses it, and what was said is remembered where 0 is told.
    fn remember<T: Tracee>(&mut self, t: &mut T, change: Change) -> Result<(), NoMemory>
        ensures exits { OnOk result ((self.new, T.stopped t.new) ≡ remember change self.old (T.stopped t.old)) }
        ensures edits { OnlyEdits T.stopped T.around t.old t.new }
    {
        // For the proof alone: the process lives.
        let _pid = t.pid();
        let target = t.target();
        forgive(t, true);
        remember(&mut self.identities, change, target, t.reg(ANSWER))
    }

    /// The owner in the structure `stat` that a call has written, if it did.
    fn show_owner<T: Tracee>(&self, t: &mut T, at: u64) -> Result<(), NoMemory>
        ensures shows { OnOk result ((self.now, T.stopped t.new) ≡ after_due self.now (T.stopped t.old) (Some (ShowsOwner at))) }
        ensures edits { OnlyEdits T.stopped T.around t.old t.new }
    {
        // For the proof alone: the process lives.
        let _pid = t.pid();
        if has_answered_zero(t) {
            show_owner(t, self.user, &self.identities, at)
        } else {
            Ok(())
        }
    }

    /// The identity of a process that begins a new program, if it does.
    fn begin_program<T: Tracee>(&mut self, t: &mut T) -> Result<(), NoMemory>
        ensures begins { OnOk result ((self.new, T.stopped t.new) ≡ after_due self.old (T.stopped t.old) (Some BeginsProgram)) }
        ensures edits { OnlyEdits T.stopped T.around t.old t.new }
    {
        let pid = t.pid();
        if !has_answered_zero(t) {
            return Ok(());
        }
        let mut ids = self.identities.take(pid)?;
        ids.after_exec();
        let stack = t.reg(STACK);
        show_identity(t, &ids, stack)?;
        self.identities.keep(pid, ids)?;
        Ok(())
    }
}

/// What is due of a call that the kernel carries out, by whether processes start as root.
pub fn due_of(root: bool, request: &Request) -> Option<Due>
    ensures { result ≡ due_of root request.now }
{
    match *request {
        Request::Fchown { uid, gid, .. } if root => Some(sets_owner(uid, gid)),
        Request::Fchownat { uid, gid, .. } if root => Some(sets_owner(uid, gid)),
        Request::Fchmod { mode, .. } if root => Some(sets_mode(mode)),
        Request::Fchmodat { mode, .. } if root => Some(sets_mode(mode)),
        Request::Chroot { .. } if root => Some(Due::ForgivesRoot),
        Request::Fstat { buf, .. } => Some(Due::ShowsOwner { at: buf }),
        Request::Newfstatat { buf, .. } => Some(Due::ShowsOwner { at: buf }),
        Request::Execve { .. } => Some(Due::BeginsProgram),
        _ => None,
    }
}

/// What is due of a call that sets an owner and a group.
fn sets_owner(uid: u32, gid: u32) -> Due
    ensures { result ≡ Remembers (Own uid gid) }
{
    Due::Remembers {
        change: Change::Own { uid, gid },
    }
}

/// What is due of a call that sets a mode, of which the low 12 bits count.
fn sets_mode(mode: u32) -> Due
    ensures { result ≡ Remembers (Mode (mode % modes)) }
{
    Due::Remembers {
        change: Change::Mode {
            bits: (mode % MODES) as u16,
        },
    }
}

impl Stops for Faker {
    ghost use Rattle.std.specs.Prelude.{false};
    ghost use Rattle.pt_faker.specs.Faking.{born, entered, exited, gone};

    ghost enters = { λ x t y u. (y, u) ≡ entered x t };

    ghost exits = { λ x t y u. (y, u) ≡ exited x t };

    ghost bears = { λ x parent child y. y ≡ born x parent child };

    ghost forgets = { λ x pid y. y ≡ gone x pid };

    ghost asks = { λ x t. false };

    ghost agrees = { λ x t user. Unit {0} };

    ghost is_free = { λ x pid. Unit {0} };

    fn entry<T: Tracee>(&mut self, t: &mut T) -> Result<(), NoMemory> {
        let pid = t.pid();
        match t.request() {
            Ok(request) => self.take_up(t, &request),
            Err(CallFault::Err(_)) => {
                let _due = self.dues.take(pid);
                Ok(())
            }
            Err(CallFault::NoMemory) => Err(NoMemory),
        }
    }

    fn exit<T: Tracee>(&mut self, t: &mut T) -> Result<(), NoMemory> {
        let pid = t.pid();
        match self.dues.take(pid) {
            Some(due) => self.settle(t, due),
            None => Ok(()),
        }
    }

    fn born(&mut self, parent: u32, child: u32) -> Result<(), NoMemory> {
        self.identities.born(parent, child)?;
        Ok(())
    }

    fn gone(&mut self, pid: u32) {
        self.identities.gone(pid);
        let _due = self.dues.take(pid);
    }

    ghost free_agrees = { λ x pid free t user. tt };

    ghost lasts_with_shape = { λ x t u user sound shape before. tt };
}

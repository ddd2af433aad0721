//! A process at a stop, in the state of its kernel.
ghost use Rattle.std.specs.Prelude.{◌≡◌, ◌≤◌, ◌^◌, true, not, IsSome, refl};
ghost use Rattle.kr_hostview.specs.NoJumps.{fronts, no-jump};
ghost use Rattle.kr_hostview.specs.pr_base.Peeks.{NamesAreTexts};
ghost use Rattle.kr_steps.specs.Calls.{Runs};
ghost use Rattle.kr_steps.specs.kr_model.Peeks.{peeked_of};
ghost use Rattle.kr_steps.specs.kr_model.State.{process};
ghost use Rattle.kr_hostview.specs.kr_ops.Meaning.{meaning};
ghost use Rattle.kr_hostview.specs.kr_ops.Sound.{IsOfView};
ghost use Rattle.kr_turns.specs.Held.{Around, Left, Stands, around_of, left_of, stopped_in, stopped_of};
ghost use Rattle.kr_turns.specs.HeldLaws.{held-texts, left-parts};

use crate::editing;
use kr_execve::below::{CallFault, Places, Request};
use kr_hostview::below::{
    BaseKind, Bytes, NoMemory, PeekFault, PeekKind, Peeks, State, lawful_states_are_sound,
};
use kr_hostview::host_peeks;
use kr_steps::below::{BadAddress, Handed, StoreFault, Tracee, Use};
use kr_steps::request;
use std::alloc::Global;
use std::marker::Model;

/// A living process that stands at a stop of its call, in the state of its kernel, which is lent for as long.
#[derive(Drop)]
pub(crate) struct Here<'a, P: Places, const M: u8> {
    alloc: Global,
    places: &'a P,
    state: &'a mut State<P::Mount, M>,
    pid: u32,
    handed: Handed,
    calls: u32,
    unmet: bool,
    ghost texts: { ∥ NamesAreTexts (peeked_of (meaning state.now) pid) ∥₁ },
}

impl<'a, P: Places, const M: u8> Model for Here<'a, P, M> {
    ghost use Rattle.std.specs.Coded.{codes};
    ghost use Rattle.kr_steps.specs.rv_mem.Memory.{memory_code};
    ghost use Rattle.kr_execve.specs.kr_tree.Tree.{tree_code};
    ghost use Rattle.kr_hostview.specs.kr_files.Descriptors.{descriptors_code};
    ghost use Rattle.kr_hostview.specs.kr_files.Files.{kept_code};
    ghost use Rattle.kr_turns.specs.Held.{Held, Stands};

    ghost Value = { Held P P.Mount M };

    ghost coded = { Prim.hlevel (codes, tree_code, memory_code, descriptors_code, kept_code {M = P.Mount} (Prim.hlevel (codes, P.Mount.code)), P.Mount.code, P.code) };

    ghost view = { λ h. record { places = h.places.now; state = h.state.now; pid = h.pid; handed = h.handed; calls = h.calls; lent = h.state.ghost_name; unmet = h.unmet; texts = h.texts } };

    ghost invariant = { λ h. Stands P.number (P.mounts h.places.now) h.calls h.pid h.state.now };
}

impl<'a, P: Places, const M: u8> Here<'a, P, M> {
    /// A living process in a state after `calls` calls.
    pub(crate) fn new(
        alloc: Global,
        places: &'a P,
        state: &'a mut State<P::Mount, M>,
        pid: u32,
        handed: Handed,
        calls: u32,
    ) -> Here<'a, P, M>
        requires runs { Runs P.number (P.mounts places.now) calls state.old }
        requires lives { IsSome (process pid (meaning state.old)) }
        ensures stopped { stopped_of P.number result ≡ stopped_in P.number state.old pid handed }
        ensures around { around_of P.number result ≡ record { places = places.now; calls = calls; lent = state.entry.ghost_name } }
        ensures unmet { result.unmet ≡ true }
    {
        names_are_texts(state, pid);
        Here {
            alloc,
            places,
            state,
            pid,
            handed,
            calls,
            unmet: true,
        }
    }

    /// Whether a peek looked up a name in the process directory.
    pub(crate) fn met(&self) -> bool
        ensures { result ≡ not self.now.unmet }
    {
        !self.unmet
    }

    /// The state.
    pub(crate) fn into_state(self) -> &'a mut State<P::Mount, M>
        ensures stopped { stopped_in P.number result.now self.entry.pid self.entry.handed ≡ stopped_of P.number self.entry }
        ensures stands { Stands P.number (P.mounts self.entry.places) self.entry.calls self.entry.pid result.now }
        ensures lent { result.ghost_name ≡ self.entry.lent }
    {
        self.state
    }
}

/// What is told of a lawful state are texts.
fn names_are_texts<T: Copy, const M: u8>(state: &State<T, M>, pid: u32)
    requires { IsOfView state.now }
    ensures texts { NamesAreTexts (peeked_of (meaning state.now) pid) }
    ensures small { (meaning state.now).next_pid ≤ 2 ^ 32 }
{
    numbers_are_small(state);
}

/// Numbers of processes have 32 bits.
fn numbers_are_small<T, const M: u8>(state: &State<T, M>)
    ensures { (meaning state.now).next_pid ≤ 2 ^ 32 }
{
    // For the proof alone: the field has 32 bits.
    let _next = state.next_pid;
}

impl<'a, P: Places, const M: u8> Peeks for Here<'a, P, M> {
    ghost peeked = { λ h. peeked_of (stopped_of P.number h).state h.pid };

    ghost Kept = { Left P };

    ghost kept = { left_of P.number };

    ghost unmet = { λ h. h.unmet };

    fn kind(&mut self, host: &[u8]) -> Result<PeekKind, PeekFault> {
        let mut peeks = host_peeks(self.alloc, self.state, self.pid, self.unmet);
        let kind = peeks.kind(host);
        self.unmet = peeks.unmet();
        kind
    }

    fn link_text(&mut self, host: &[u8]) -> Result<Bytes, PeekFault> {
        let mut peeks = host_peeks(self.alloc, self.state, self.pid, self.unmet);
        let text = peeks.link_text(host);
        self.unmet = peeks.unmet();
        text
    }

    fn head(&mut self, host: &[u8], n: u32) -> Result<Bytes, PeekFault> {
        let mut peeks = host_peeks(self.alloc, self.state, self.pid, self.unmet);
        let head = peeks.head(host, n);
        self.unmet = peeks.unmet();
        head
    }

    fn steady(&mut self, host: &[u8]) -> Result<bool, NoMemory> {
        host_peeks(self.alloc, self.state, self.pid, self.unmet).steady(host)
    }

    fn base_kind(&mut self, pid: u32, fd: u32) -> BaseKind {
        host_peeks(self.alloc, self.state, self.pid, self.unmet).base_kind(pid, fd)
    }

    fn base_name(&mut self, pid: u32, fd: u32) -> Result<Option<Bytes>, NoMemory> {
        host_peeks(self.alloc, self.state, self.pid, self.unmet).base_name(pid, fd)
    }

    fn cwd_name(&mut self, pid: u32) -> Result<Option<Bytes>, NoMemory> {
        host_peeks(self.alloc, self.state, self.pid, self.unmet).cwd_name(pid)
    }

    fn exe_name(&mut self, pid: u32) -> Result<Option<Bytes>, NoMemory> {
        host_peeks(self.alloc, self.state, self.pid, self.unmet).exe_name(pid)
    }

    ghost names_are_texts = { held-texts P.number };

    ghost steady_is_no_jump = { λ h. no-jump (stopped_of P.number h).state h.pid };

    ghost fronts_are_steady = { λ h. fronts (stopped_of P.number h).state h.pid };
}

impl<'a, P: Places, const M: u8> Tracee for Here<'a, P, M> {
    ghost stopped = { stopped_of P.number };

    ghost Around = { Around P };

    ghost around = { λ h. (around_of P.number h, h.unmet) };

    fn pid(&self) -> u32 {
        self.pid
    }

    fn reg(&self, k: u8) -> u64 {
        lawful_states_are_sound::<P::Mount, M>();
        editing::register(self.state, self.pid, k)
    }

    fn set_reg(&mut self, k: u8, v: u64) {
        lawful_states_are_sound::<P::Mount, M>();
        editing::set_register(&mut *self.state, self.pid, k, v);
    }

    fn can(&self, at: u64, n: u64, what: Use) -> bool {
        lawful_states_are_sound::<P::Mount, M>();
        editing::can(self.state, self.pid, at, n, what)
    }

    fn peek(&mut self, at: u64, into: &mut [u8], what: Use) -> Result<(), BadAddress> {
        lawful_states_are_sound::<P::Mount, M>();
        editing::peek(&mut *self.state, self.pid, at, into, what)
    }

    fn poke(&mut self, at: u64, b: &[u8]) -> Result<(), StoreFault> {
        lawful_states_are_sound::<P::Mount, M>();
        editing::poke(&mut *self.state, self.pid, at, b)
    }

    fn at_root(&self) -> bool {
        self.handed.at_root
    }

    fn target(&self) -> Option<u64> {
        self.handed.target
    }

    fn request(&mut self) -> Result<Request, CallFault> {
        lawful_states_are_sound::<P::Mount, M>();
        request(&mut *self.state, self.pid)
    }

    ghost peeks_at_state = { λ h. refl };

    ghost kept_is_all = { λ h i same. left-parts _ _ same };

    ghost unmet_is_told = { λ h. refl };
}

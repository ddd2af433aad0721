//! What a tracer may ask of a state.
ghost use Rattle.std.specs.Prelude.{◌≡◌};
ghost use Rattle.kr_seen.specs.pr_base.Peeks.{NamesAreTexts};
ghost use Rattle.kr_seen.specs.kr_model.Peeks.{peeked_of};
ghost use Rattle.kr_seen.specs.kr_ops.Meaning.{meaning};
ghost use Rattle.kr_seen.specs.kr_ops.Sound.{IsOfView};

use crate::peeks;
use kr_seen::below::{BaseKind, Bytes, NoMemory, PeekFault, PeekKind, Peeks, State};
use std::alloc::Global;
use std::marker::Model;

/// What a tracer may ask of a lawful state of some view in the name of a caller: what the walks of the host's own view find.
#[derive(Drop)]
pub struct HostPeeks<'a, T, const M: u8> {
    alloc: Global,
    state: &'a State<T, M>,
    caller: u32,
    unmet: bool,
    ghost texts: { ∥ NamesAreTexts (peeked_of (meaning state.now) caller) ∥₁ },
}

impl<'a, T, const M: u8> Model for HostPeeks<'a, T, M> {
    ghost use Rattle.std.specs.Coded.{codes};
    ghost use Rattle.kr_seen.specs.rv_mem.Memory.{memory_code};
    ghost use Rattle.kr_seen.specs.kr_tree.Tree.{tree_code};
    ghost use Rattle.kr_seen.specs.kr_files.Descriptors.{descriptors_code};
    ghost use Rattle.kr_seen.specs.kr_files.Files.{kept_code};
    ghost use Rattle.kr_seen.specs.kr_ops.Sound.{IsOfView};
    ghost use Rattle.kr_hostview.specs.Asked.{Asked};

    ghost Value = { Asked T M };

    ghost coded = { Prim.hlevel (codes, tree_code, memory_code, descriptors_code, kept_code {M = T} (Prim.hlevel (codes, T.code)), T.code) };

    ghost view = { λ v. record { state = v.state.now; caller = v.caller; unmet = v.unmet; texts = v.texts } };

    ghost invariant = { λ v. IsOfView v.state.now };
}

/// What a tracer may ask of a state that is lawful for some view in the name of a caller. `unmet` tells whether no peek looked up a name in the
/// process directory before.
pub fn host_peeks<'a, T: Copy, const M: u8>(
    alloc: Global,
    state: &'a State<T, M>,
    caller: u32,
    unmet: bool,
) -> HostPeeks<'a, T, M>
    requires { IsOfView state.now }
    ensures state { result.state ≡ state.now }
    ensures caller { result.caller ≡ caller }
    ensures unmet { result.unmet ≡ unmet }
{
    peeks::told_names_are_texts(state);
    HostPeeks {
        alloc,
        state,
        caller,
        unmet,
    }
}

impl<'a, T: Copy, const M: u8> Peeks for HostPeeks<'a, T, M> {
    ghost use Rattle.kr_seen.specs.kr_model.Peeks.{peeked_of};
    ghost use Rattle.kr_seen.specs.kr_ops.Meaning.{meaning};
    ghost use Rattle.kr_hostview.specs.Asked.{Left, left_of};
    ghost use Rattle.kr_hostview.specs.NoJumps.{fronts, no-jump};
    ghost use Rattle.kr_hostview.specs.Texts.{texts-told};

    ghost peeked = { λ v. peeked_of (meaning v.state) v.caller };

    ghost Kept = { Left T M };

    ghost kept = { left_of };

    ghost unmet = { λ v. v.unmet };

    fn kind(&mut self, host: &[u8]) -> Result<PeekKind, PeekFault> {
        self.is_of_view();
        peeks::kind(self.alloc, self.state, self.caller, host, &mut self.unmet)
    }

    fn link_text(&mut self, host: &[u8]) -> Result<Bytes, PeekFault> {
        self.is_of_view();
        peeks::link_text(self.alloc, self.state, self.caller, host, &mut self.unmet)
    }

    fn head(&mut self, host: &[u8], n: u32) -> Result<Bytes, PeekFault> {
        self.is_of_view();
        peeks::head(
            self.alloc,
            self.state,
            self.caller,
            host,
            n,
            &mut self.unmet,
        )
    }

    fn steady(&mut self, host: &[u8]) -> Result<bool, NoMemory> {
        self.is_of_view();
        peeks::steady(self.alloc, self.state, self.caller, host)
    }

    fn base_kind(&mut self, pid: u32, fd: u32) -> BaseKind {
        self.is_of_view();
        peeks::base_kind(self.state, pid, fd)
    }

    fn base_name(&mut self, pid: u32, fd: u32) -> Result<Option<Bytes>, NoMemory> {
        self.is_of_view();
        peeks::base_name(self.alloc, self.state, pid, fd)
    }

    fn cwd_name(&mut self, pid: u32) -> Result<Option<Bytes>, NoMemory> {
        self.is_of_view();
        peeks::cwd_name(self.alloc, self.state, pid)
    }

    fn exe_name(&mut self, pid: u32) -> Result<Option<Bytes>, NoMemory> {
        self.is_of_view();
        peeks::exe_name(self.alloc, self.state, pid)
    }

    ghost names_are_texts = { λ v. texts-told (peeked_of (meaning v.state) v.caller) v.texts };

    ghost steady_is_no_jump = { λ v. no-jump (meaning v.state) v.caller };

    ghost fronts_are_steady = { λ v. fronts (meaning v.state) v.caller };
}

impl<'a, T: Copy, const M: u8> HostPeeks<'a, T, M> {
    /// Whether no peek looked up a name in the process directory so far.
    pub fn unmet(&self) -> bool
        ensures { result ≡ self.now.unmet }
    {
        self.unmet
    }

    /// What holds of the state.
    fn is_of_view(&self)
        ensures { IsOfView self.now.state }
    {
        // For the proof alone: what holds of each `HostPeeks`.
        let _state = &self.state;
    }
}

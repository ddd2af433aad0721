//! The process directory of the host's own view over a state.
ghost use Rattle.std.specs.Prelude.{◌≡◌, IfOk};
ghost use Rattle.kr_seen.specs.kr_model.HostView.{host_space};
ghost use Rattle.kr_seen.specs.kr_ops.Meaning.{meaning};
ghost use Rattle.kr_seen.specs.kr_ops.Sound.{IsOfView};
ghost use Rattle.kr_seen.specs.Shown.{lead_to};
ghost use Rattle.kr_hostview.specs.OnHost.{host_target, number};

use crate::target::{carries_one_mount, standing_target};
use kr_seen::below::{HostMount, Lead, NoMemory, Plain, ProcAt, Procs, State, proc_name};
use kr_seen::find::find;
use kr_seen::guest::lead_to;
use std::alloc::Global;
use std::marker::Model;

/// What the process directory shows of a lawful state of some view to the host: the same names, and links that lead to the
/// same objects in the one host mount.
#[derive(Drop)]
pub struct HostProcs<'a, T, const M: u8> {
    alloc: Global,
    state: &'a State<T, M>,
}

impl<'a, T, const M: u8> Model for HostProcs<'a, T, M> {
    ghost use Rattle.std.specs.Coded.{codes};
    ghost use Rattle.kr_seen.specs.rv_mem.Memory.{memory_code};
    ghost use Rattle.kr_seen.specs.kr_tree.Tree.{tree_code};
    ghost use Rattle.kr_seen.specs.kr_files.Descriptors.{descriptors_code};
    ghost use Rattle.kr_seen.specs.kr_files.Files.{kept_code};
    ghost use Rattle.kr_seen.specs.kr_ops.declared.state.State.{State};
    ghost use Rattle.kr_seen.specs.kr_ops.Sound.{IsOfView};

    ghost Value = { State T M };

    ghost coded = { Prim.hlevel (codes, tree_code, memory_code, descriptors_code, kept_code {M = T} (Prim.hlevel (codes, T.code)), T.code) };

    ghost view = { λ v. v.state.now };

    ghost invariant = { λ v. IsOfView v.state.now };
}

/// The process directory of the host's own view over a state that is lawful for some view.
pub fn host_procs<'a, T: Copy, const M: u8>(
    alloc: Global,
    state: &'a State<T, M>,
) -> HostProcs<'a, T, M>
    requires { IsOfView state.now }
    ensures { result ≡ state.now }
{
    HostProcs { alloc, state }
}

impl<'a, T: Copy, const M: u8> Procs for HostProcs<'a, T, M> {
    type Mount = HostMount;

    ghost use Rattle.kr_seen.specs.kr_view.Living.{finds_among};
    ghost use Rattle.kr_seen.specs.kr_model.HostView.{host_leads};
    ghost use Rattle.kr_seen.specs.kr_model.ProcessDirectory.{living_of};
    ghost use Rattle.kr_seen.specs.kr_ops.Meaning.{meaning};
    ghost use Rattle.kr_hostview.specs.OnHost.{lead_on_host};

    ghost finds = { λ v caller. finds_among (living_of (meaning v)) };

    ghost leads = { λ v caller at. lead_on_host (host_leads (meaning v) caller at) };

    fn find(&self, _caller: u32, at: Option<ProcAt>, name: &[u8]) -> Option<ProcAt> {
        self.is_of_view();
        carries_one_mount(self.state);
        find(self.state, at, name)
    }

    fn lead(&self, caller: u32, at: ProcAt) -> Result<Lead<HostMount>, NoMemory> {
        match at {
            ProcAt::SelfLink => Ok(Lead::Text(proc_name(self.alloc, ProcAt::Dir(caller))?)),
            ProcAt::Dir(_) | ProcAt::FdDir(_) => Ok(Lead::NoLink),
            ProcAt::Cwd(_) | ProcAt::Root(_) | ProcAt::Exe(_) | ProcAt::Fd(_, _) => {
                self.lead_on(at)
            }
        }
    }
}

impl<'a, T: Copy, const M: u8> HostProcs<'a, T, M> {
    /// What holds of the state.
    fn is_of_view(&self)
        ensures { IsOfView self.now }
    {
        // For the proof alone: what holds of each `HostProcs`.
        let _state = &self.state;
    }

    /// Where a link leads that isn't `self`.
    fn lead_on(&self, at: ProcAt) -> Result<Lead<HostMount>, NoMemory>
        ensures { IfOk result (λ lead. lead ≡ lead_to number (host_space (meaning self.now)) (host_target (meaning self.now) at)) }
    {
        self.is_of_view();
        carries_one_mount(self.state);
        let places = Plain::new();
        lead_to(
            self.alloc,
            &places,
            self.state,
            standing_target(self.state, at),
        )
    }
}

//! The view of the process directory over a state.
ghost use Rattle.std.specs.Prelude.{◌≡◌, IfOk};
ghost use Rattle.kr_ops.specs.kr_view.Leads.{numbered};
ghost use Rattle.kr_ops.specs.kr_view.View.{root_place};
ghost use Rattle.kr_ops.specs.kr_model.Lawful.{IsLawful};
ghost use Rattle.kr_ops.specs.kr_model.ProcessDirectory.{name_text};
ghost use Rattle.kr_ops.specs.Meaning.{meaning};
ghost use Rattle.kr_ops.specs.Sound.{IsLawfulIn, IsServed};
ghost use Rattle.kr_seen.specs.Carried.{CarriesMounts};
ghost use Rattle.kr_seen.specs.Held.{shown_of};
ghost use Rattle.kr_seen.specs.Shown.{space_in, target_in, texts_in};
ghost use Rattle.kr_seen.specs.Standing.{IsNameable, IsStanding};
ghost use Rattle.kr_seen.specs.Targets.{target_told};

use crate::find::find;
use crate::guest::{guest_text, lead_to, text_to};
use crate::target::{Target, cwd_of, exe_of, open_at, root_of};
use kr_ops::State;
use kr_ops::below::{Ino, Lead, Place, Places, ProcAt, Procs, proc_name};
use kr_ops::laws::lawful_states_are_sound;
use kr_walk::below::{Bytes, NoMemory};
use std::alloc::Global;
use std::marker::Model;

/// What the process directory shows of a lawful state, over the mounts of a view.
#[derive(Drop)]
pub struct ProcView<'a, P: Places, const M: u8> {
    alloc: Global,
    places: &'a P,
    state: &'a State<P::Mount, M>,
    root: &'a Place<P::Mount>,
}

impl<'a, P: Places, const M: u8> Model for ProcView<'a, P, M> {
    ghost use Rattle.std.specs.Prelude.{◌≡◌};
    ghost use Rattle.kr_ops.specs.kr_view.Leads.{numbered};
    ghost use Rattle.kr_ops.specs.kr_view.View.{is_there, root_place, row};
    ghost use Rattle.kr_ops.specs.kr_model.Lawful.{IsLawful};
    ghost use Rattle.kr_ops.specs.Meaning.{meaning};
    ghost use Rattle.kr_ops.specs.Sound.{IsServed};
    ghost use Rattle.std.specs.Coded.{codes};
    ghost use Rattle.kr_ops.specs.rv_mem.Memory.{memory_code};
    ghost use Rattle.kr_ops.specs.kr_tree.Tree.{tree_code};
    ghost use Rattle.kr_ops.specs.kr_files.Descriptors.{descriptors_code};
    ghost use Rattle.kr_ops.specs.kr_files.Files.{kept_code};
    ghost use Rattle.kr_seen.specs.Held.{Held};

    ghost Value = { Held P.Mount M };

    ghost coded = { Prim.hlevel (codes, tree_code, memory_code, descriptors_code, kept_code {M = P.Mount} (Prim.hlevel (codes, P.Mount.code)), P.Mount.code) };

    ghost view = { λ v. record { table = P.mounts v.places.now; root = v.root.now; state = v.state.now } };

    ghost invariant = { λ v. IsLawful P.number (P.mounts v.places.now) (meaning v.state.now) × IsServed v.state.now × (numbered P.number v.root.now ≡ root_place (P.mounts v.places.now)) };
}

/// The process directory over a state that is lawful for a view, in which absolute paths begin at `root`. It is handed in since a
/// view's places may be of any size, and what is lent to a walk may not.
pub fn procs<'a, P: Places, const M: u8>(
    alloc: Global,
    places: &'a P,
    state: &'a State<P::Mount, M>,
    root: &'a Place<P::Mount>,
) -> ProcView<'a, P, M>
    requires state { IsLawfulIn P.number (P.mounts places.now) state.now }
    requires rooted { numbered P.number root.now ≡ root_place (P.mounts places.now) }
    ensures table { result.table ≡ P.mounts places.now }
    ensures state { result.state ≡ state.now }
    ensures root { result.root ≡ root.now }
{
    ProcView {
        alloc,
        places,
        state,
        root,
    }
}

impl<'a, P: Places, const M: u8> Procs for ProcView<'a, P, M> {
    type Mount = P::Mount;

    ghost use Rattle.kr_seen.specs.Held.{shown_of};
    ghost use Rattle.kr_seen.specs.Shown.{finds_in, leads_in};

    ghost finds = { λ v caller. finds_in (shown_of v) };

    ghost leads = { λ v caller at. leads_in P.number (shown_of v) caller at };

    fn find(&self, _caller: u32, at: Option<ProcAt>, name: &[u8]) -> Option<ProcAt> {
        self.carries_mounts();
        find(self.state, at, name)
    }

    fn lead(&self, caller: u32, at: ProcAt) -> Result<Lead<P::Mount>, NoMemory> {
        match at {
            ProcAt::SelfLink => Ok(Lead::Text(proc_name(self.alloc, ProcAt::Dir(caller))?)),
            ProcAt::Dir(_) | ProcAt::FdDir(_) => Ok(Lead::NoLink),
            ProcAt::Cwd(_) | ProcAt::Root(_) | ProcAt::Exe(_) | ProcAt::Fd(_, _) => {
                self.carries_mounts();
                lead_to(
                    self.alloc,
                    self.places,
                    self.state,
                    self.standing_target(at),
                )
            }
        }
    }
}

impl<'a, P: Places, const M: u8> ProcView<'a, P, M> {
    /// What holds of the state and the view.
    fn is_lawful(&self)
        ensures lawful { IsLawful P.number self.now.table (meaning self.now.state) }
        ensures served { IsServed self.now.state }
        ensures root { numbered P.number self.now.root ≡ root_place self.now.table }
    {
        // For the proof alone: what holds of each `ProcView`.
        let _state = &self.state;
    }

    /// What names of places rest on.
    fn carries_mounts(&self)
        ensures { CarriesMounts self.now.table self.now.state }
    {
        self.is_lawful();
        lawful_states_are_sound::<P::Mount, M>();
    }

    /// What a link leads to, which stands in the tree where it is a place.
    fn standing_target(&self, at: ProcAt) -> Target<'_, P::Mount>
        ensures told { target_told result ≡ target_in (shown_of self.now) at }
        ensures stands { IsStanding P.number self.now.state.tree self.now.table (target_told result) }
    {
        self.is_lawful();
        self.target(at)
    }

    /// What a link leads to.
    fn target(&self, at: ProcAt) -> Target<'_, P::Mount>
        ensures { target_told result ≡ target_in (shown_of self.now) at }
    {
        self.carries_mounts();
        match at {
            ProcAt::SelfLink | ProcAt::Dir(_) | ProcAt::FdDir(_) => Target::Nothing,
            ProcAt::Cwd(pid) => cwd_of(self.state, pid),
            ProcAt::Root(pid) => root_of(self.state, pid, *self.root),
            ProcAt::Exe(pid) => exe_of(self.state, pid),
            ProcAt::Fd(pid, fd) => open_at(self.state, pid, fd),
        }
    }

    /// The text of a link, as readlink(2) gives it; `None` exactly where it has none.
    pub fn text(&self, caller: u32, at: ProcAt) -> Result<Option<Bytes>, NoMemory>
        ensures { IfOk result (λ text. text ≡ texts_in P.number (shown_of self.now) caller at) }
    {
        match at {
            ProcAt::SelfLink => Ok(Some(proc_name(self.alloc, ProcAt::Dir(caller))?)),
            ProcAt::Dir(_) | ProcAt::FdDir(_) => Ok(None),
            ProcAt::Cwd(_) | ProcAt::Root(_) | ProcAt::Exe(_) | ProcAt::Fd(_, _) => {
                self.carries_mounts();
                text_to(
                    self.alloc,
                    self.places,
                    self.state,
                    self.standing_target(at),
                )
            }
        }
    }

    /// The guest name of a place, as getcwd(2) tells it. What is no directory has that of the entry which its object
    /// remembers; an empty name remembers none. `None` where the place has no name.
    pub fn guest_text(
        &self,
        place: Place<P::Mount>,
        dir: Ino,
        name: &[u8],
    ) -> Result<Option<Bytes>, NoMemory>
        requires { IsNameable P.number self.now.state.tree self.now.table place }
        ensures { IfOk result (λ text. text ≡ name_text (space_in (shown_of self.now)) (numbered P.number place) dir name.now) }
    {
        self.carries_mounts();
        guest_text(self.alloc, self.places, self.state, place, dir, name)
    }
}

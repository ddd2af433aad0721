//! Guest names of places over a state, and the links that lead there.
ghost use Rattle.std.specs.Prelude.{◌≡◌, ℕ, List, IfOk, true};
ghost use Rattle.std.specs.Option.{option_map};
ghost use Rattle.kr_ops.specs.pr_base.Paths.{text_of};
ghost use Rattle.kr_ops.specs.kr_tree.declared.place.Host.TheVariants.{Proc};
ghost use Rattle.kr_ops.specs.kr_tree.Tree.{body_is};
ghost use Rattle.kr_ops.specs.kr_view.Component.{is_process_directory, is_processes};
ghost use Rattle.kr_ops.specs.kr_view.Leads.{numbered};
ghost use Rattle.kr_ops.specs.kr_view.Names.{guest_node};
ghost use Rattle.kr_ops.specs.kr_view.View.{Row, is_there, row};
ghost use Rattle.kr_ops.specs.kr_model.ProcessDirectory.{name_text, space_of, unplaced_text};
ghost use Rattle.kr_ops.specs.Meaning.{meaning};
ghost use Rattle.kr_ops.specs.Sound.{IsSound};
ghost use Rattle.kr_seen.specs.Carried.{CarriesMounts};
ghost use Rattle.kr_seen.specs.Shown.{lead_to, text_to};
ghost use Rattle.kr_seen.specs.Standing.{is_shown_directory, IsNameable, IsStanding};
ghost use Rattle.kr_seen.specs.Targets.{target_told};

use crate::name::text_below;
use crate::target::{Target, lives};
use kr_ops::State;
use kr_ops::below::{Host, Ino, Lead, Place, Places, ProcAt, What, pipe_text};
use kr_walk::below::{Bytes, NoMemory};
use kr_walk::guest_name;
use std::alloc::Global;

/// Where a link leads that leads to this.
pub fn lead_to<P: Places, T: Copy, const M: u8>(
    alloc: Global,
    places: &P,
    state: &State<T, M>,
    target: Target<'_, P::Mount>,
) -> Result<Lead<P::Mount>, NoMemory>
    requires carries { CarriesMounts (P.mounts places.now) state.now }
    requires stands { IsStanding P.number state.now.tree (P.mounts places.now) (target_told target) }
    ensures { let space = space_of (P.mounts places.now) (meaning state.now) in
        IfOk result (λ lead. lead ≡ lead_to P.number space (target_told target.entry)) }
{
    match target {
        Target::Nothing => Ok(Lead::NoLink),
        Target::Unplaced(_what) => Ok(Lead::Nameless),
        Target::At(place, dir, name) => {
            let text = guest_text(alloc, places, state, place, dir, name)?;
            if text.is_none() {
                return Ok(Lead::Nameless);
            }
            let name = Bytes::copy(alloc, name)?;
            Ok(Lead::Jump { place, dir, name })
        }
    }
}

/// The text of a link that leads to this.
pub fn text_to<P: Places, T: Copy, const M: u8>(
    alloc: Global,
    places: &P,
    state: &State<T, M>,
    target: Target<'_, P::Mount>,
) -> Result<Option<Bytes>, NoMemory>
    requires carries { CarriesMounts (P.mounts places.now) state.now }
    requires stands { IsStanding P.number state.now.tree (P.mounts places.now) (target_told target) }
    ensures { let space = space_of (P.mounts places.now) (meaning state.now) in
        IfOk result (λ text. text ≡ text_to P.number space (target_told target.entry)) }
{
    match target {
        Target::Nothing => Ok(None),
        Target::Unplaced(what) => unplaced_text(alloc, what),
        Target::At(place, dir, name) => guest_text(alloc, places, state, place, dir, name),
    }
}

/// The text of a link to what has no place.
fn unplaced_text(alloc: Global, what: What) -> Result<Option<Bytes>, NoMemory>
    ensures { IfOk result (λ text. text ≡ unplaced_text what) }
{
    match what {
        What::File | What::Dir => Ok(None),
        What::In | What::Out | What::Err => Ok(Some(Bytes::copy(alloc, b"console")?)),
        What::PipeRead(pipe) | What::PipeWrite(pipe) => Ok(Some(pipe_text(alloc, pipe)?)),
    }
}

/// The guest name of a place, as getcwd(2) tells it. What is no directory has that of the entry which its object
/// remembers; an empty name remembers none. `None` where the place has no name.
pub fn guest_text<P: Places, T: Copy, const M: u8>(
    alloc: Global,
    places: &P,
    state: &State<T, M>,
    place: Place<P::Mount>,
    dir: Ino,
    name: &[u8],
) -> Result<Option<Bytes>, NoMemory>
    requires carries { CarriesMounts (P.mounts places.now) state.now }
    requires nameable { IsNameable P.number state.now.tree (P.mounts places.now) place }
    ensures { let space = space_of (P.mounts places.now) (meaning state.now) in
        IfOk result (λ text. text ≡ name_text space (numbered P.number place) dir name.now) }
{
    match place.host {
        Host::Node(ino) => {
            let remembered = if name.is_empty() {
                None
            } else {
                Some((dir, name))
            };
            node_text(alloc, places, state, place.mount, ino, remembered)
        }
        Host::Proc(ino, at) => process_text(alloc, places, state, place.mount, ino, at),
    }
}

/// The guest name of a directory of the process directory.
fn process_text<P: Places, T: Copy, const M: u8>(
    alloc: Global,
    places: &P,
    state: &State<T, M>,
    mount: P::Mount,
    ino: Ino,
    at: ProcAt,
) -> Result<Option<Bytes>, NoMemory>
    requires carries { CarriesMounts (P.mounts places.now) state.now }
    requires mounted { is_there (row (P.mounts places.now) (P.number mount)) ≡ true }
    requires processes { body_is is_processes state.now.tree ino ≡ true }
    requires directory { is_process_directory at ≡ true }
    ensures { let space = space_of (P.mounts places.now) (meaning state.now) in
        IfOk result (λ text. (dir : ℕ) (name : List ℕ) → text ≡ name_text space (record { mount = P.number mount; host = Proc ino at }) dir name) }
{
    if shows_directory(state, at) {
        let above = node_text(alloc, places, state, mount, ino, None)?;
        match above {
            Some(text) => Ok(Some(text_below(alloc, text, at)?)),
            None => Ok(None),
        }
    } else {
        Ok(None)
    }
}

/// The guest name of an inode.
fn node_text<P: Places, T: Copy, const M: u8>(
    alloc: Global,
    places: &P,
    state: &State<T, M>,
    mount: P::Mount,
    ino: Ino,
    remembered: Option<(Ino, &[u8])>,
) -> Result<Option<Bytes>, NoMemory>
    requires carries { CarriesMounts (P.mounts places.now) state.now }
    requires mounted { is_there (row (P.mounts places.now) (P.number mount)) ≡ true }
    ensures { let names = guest_node state.now.tree (row (P.mounts places.now) (P.number mount)) ino (option_map (λ e. (e.0, e.1.now)) remembered.entry) in
        IfOk result (λ text. text ≡ option_map text_of names) }
{
    guest_name(alloc, places, &state.tree, mount, ino, remembered)
}

/// Whether the process of a directory of the process directory lives.
fn shows_directory<T: Copy, const M: u8>(state: &State<T, M>, at: ProcAt) -> bool
    requires sound { IsSound state.now }
    requires directory { is_process_directory at ≡ true }
    ensures { (table : List Row) → result ≡ is_shown_directory (space_of table (meaning state.now)) at }
{
    match at {
        ProcAt::Dir(pid) => lives(state, pid),
        ProcAt::FdDir(pid) => lives(state, pid),
        ProcAt::SelfLink | ProcAt::Cwd(_) | ProcAt::Root(_) | ProcAt::Exe(_) | ProcAt::Fd(_, _) =>
            unreachable!(),
    }
}

//! What directories show.
ghost use Rattle.std.specs.Prelude.{◌≡◌, ◌≤◌, ℕ, length, true, is_some, IfOk, IfSome};
ghost use Rattle.std.specs.Option.{option_map};
ghost use Rattle.kr_seen.specs.kr_tree.declared.place.Host.TheVariants.{Node, Proc};
ghost use Rattle.kr_seen.specs.kr_tree.declared.place.ProcAt.TheVariants as at;
ghost use Rattle.kr_seen.specs.kr_model.Asking.{lives};
ghost use Rattle.kr_seen.specs.kr_model.DirectoryRows.{shown_by};
ghost use Rattle.kr_seen.specs.kr_model.Known.{known};
ghost use Rattle.kr_seen.specs.kr_model.State.{image_layout, process};
ghost use Rattle.kr_seen.specs.kr_ops.Meaning.{meaning};
ghost use Rattle.kr_seen.specs.kr_ops.Sound.{IsOfView, IsSound};
ghost use Rattle.kr_transfer.specs.Listing.{all_shown, first_behind, told_entry};

use crate::listing::{Listed, descriptor_entry, directory_entry, dots, link_entry, node_entry};
use crate::moving::allocator_of;
use kr_seen::below::{
    Host, Ino, Kind, NoMemory, ProcAt, State, lawful_states_are_sound, proc_inode,
};

/// Whether a process lives.
fn lives<T: Copy, const M: u8>(state: &State<T, M>, pid: u32, of: u32) -> bool
    requires { IsSound state.now }
    ensures { result ≡ lives (known image_layout pid (meaning state.now)) of }
{
    match state.index_of(of) {
        Some(_k) => true,
        None => false,
    }
}

/// Whether a directory of the process directory shows entries: one that went with its process shows none.
fn is_process_shown<T: Copy, const M: u8>(state: &State<T, M>, pid: u32, at: ProcAt) -> bool
    requires { IsSound state.now }
    ensures { (i : ℕ) → result ≡ is_some (shown_by (known image_layout pid (meaning state.now)) (Proc i at)) }
{
    match at {
        ProcAt::Dir(of) => lives(state, pid, of),
        ProcAt::FdDir(of) => lives(state, pid, of),
        ProcAt::SelfLink => false,
        ProcAt::Cwd(_) => false,
        ProcAt::Root(_) => false,
        ProcAt::Exe(_) => false,
        ProcAt::Fd(_, _) => false,
    }
}

/// Whether a directory shows entries: one that was removed, or that went with its process, shows none.
pub fn is_shown<T: Copy, const M: u8>(state: &State<T, M>, pid: u32, host: Host) -> bool
    requires { IsSound state.now }
    ensures { result ≡ is_some (shown_by (known image_layout pid (meaning state.now)) host) }
{
    match host {
        Host::Node(ino) => state.tree.above(ino).is_some(),
        Host::Proc(_ino, at) => is_process_shown(state, pid, at),
    }
}

/// The first entry behind a place of a directory of the tree, or of the process directory.
fn next_of_node<T: Copy, const M: u8>(
    state: &State<T, M>,
    pid: u32,
    ino: Ino,
    after: u64,
) -> Result<Option<Listed>, NoMemory>
    requires view { IsOfView state.now }
    requires shown { is_some (shown_by (known image_layout pid (meaning state.now)) (Node ino)) ≡ true }
    ensures entry { IfOk result (λ next. option_map told_entry next ≡ first_behind after (all_shown (known image_layout pid (meaning state.now)) (Node ino))) }
    ensures short { IfOk result (λ next. IfSome next (λ e. length e.name ≤ 255)) }
{
    let Some(above) = state.tree.above(ino) else {
        unreachable!();
    };
    let dot = dots(allocator_of(state), u64::from(ino), u64::from(above), after)?;
    if let Some(dot) = dot {
        return Ok(Some(dot));
    }
    match state.tree.kind(ino) {
        Some(Kind::Proc) => directory_entry(state, pid, after),
        _ => node_entry(state, pid, ino, after),
    }
}

/// The first entry behind a place of a process's directory.
fn next_of_process<T: Copy, const M: u8>(
    state: &State<T, M>,
    pid: u32,
    ino: Ino,
    of: u32,
    after: u64,
) -> Result<Option<Listed>, NoMemory>
    requires { is_some (shown_by (known image_layout pid (meaning state.now)) (Proc ino (at.Dir of))) ≡ true }
    ensures entry { IfOk result (λ next. option_map told_entry next ≡ first_behind after (all_shown (known image_layout pid (meaning state.now)) (Proc ino (at.Dir of)))) }
    ensures short { IfOk result (λ next. IfSome next (λ e. length e.name ≤ 255)) }
{
    let alloc = allocator_of(state);
    let dot = dots(alloc, proc_inode(ProcAt::Dir(of)), u64::from(ino), after)?;
    if let Some(dot) = dot {
        return Ok(Some(dot));
    }
    link_entry(alloc, of, after)
}

/// The first entry behind a place of the directory of a process's descriptors.
fn next_of_descriptors<T: Copy, const M: u8>(
    state: &State<T, M>,
    pid: u32,
    ino: Ino,
    of: u32,
    after: u64,
) -> Result<Option<Listed>, NoMemory>
    requires view { IsOfView state.now }
    requires shown { is_some (shown_by (known image_layout pid (meaning state.now)) (Proc ino (at.FdDir of))) ≡ true }
    ensures entry { IfOk result (λ next. option_map told_entry next ≡ first_behind after (all_shown (known image_layout pid (meaning state.now)) (Proc ino (at.FdDir of)))) }
    ensures short { IfOk result (λ next. IfSome next (λ e. length e.name ≤ 255)) }
{
    lawful_states_are_sound::<T, M>();
    let here = proc_inode(ProcAt::FdDir(of));
    let above = proc_inode(ProcAt::Dir(of));
    let dot = dots(allocator_of(state), here, above, after)?;
    if let Some(dot) = dot {
        return Ok(Some(dot));
    }
    descriptor_entry(state, pid, of, after)
}

/// The first entry behind a place of what shows some.
pub fn next_listed<T: Copy, const M: u8>(
    state: &State<T, M>,
    pid: u32,
    host: Host,
    after: u64,
) -> Result<Option<Listed>, NoMemory>
    requires view { IsOfView state.now }
    requires shown { is_some (shown_by (known image_layout pid (meaning state.now)) host) ≡ true }
    ensures entry { IfOk result (λ next. option_map told_entry next ≡ first_behind after (all_shown (known image_layout pid (meaning state.now)) host)) }
    ensures short { IfOk result (λ next. IfSome next (λ e. length e.name ≤ 255)) }
{
    match host {
        Host::Node(ino) => next_of_node(state, pid, ino, after),
        Host::Proc(ino, ProcAt::Dir(of)) => next_of_process(state, pid, ino, of, after),
        Host::Proc(ino, ProcAt::FdDir(of)) => next_of_descriptors(state, pid, ino, of, after),
        Host::Proc(_, ProcAt::SelfLink) => Ok(None),
        Host::Proc(_, ProcAt::Cwd(_)) => Ok(None),
        Host::Proc(_, ProcAt::Root(_)) => Ok(None),
        Host::Proc(_, ProcAt::Exe(_)) => Ok(None),
        Host::Proc(_, ProcAt::Fd(_, _)) => Ok(None),
    }
}

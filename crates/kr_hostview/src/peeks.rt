//! What a kernel tells a tracer of a state, in the name of a caller.
ghost use Rattle.std.specs.Prelude.{◌≡◌, ℕ, ◌<◌, ◌^◌, ◌&&◌, [], not, take, IfOk, Ok};
ghost use Rattle.std.specs.Option.{option_map};
ghost use Rattle.kr_seen.specs.pr_base.Peeks.{IsNoted, IsPeeked, NamesAreTexts};
ghost use Rattle.kr_seen.specs.pr_base.declared.path.WalkMode.TheVariants.{LookLink};
ghost use Rattle.kr_seen.specs.kr_view.Answers.{IsAnswer, IsReached};
ghost use Rattle.kr_seen.specs.kr_view.Reach.{nothing};
ghost use Rattle.kr_seen.specs.kr_view.View.{plain, root_place};
ghost use Rattle.kr_seen.specs.kr_view.declared.view.HostMount.{HostMount};
ghost use Rattle.kr_seen.specs.kr_model.HostView.{base_name, base_text, cwd_name, exe_name, host_around_of, host_space};
ghost use Rattle.kr_seen.specs.kr_model.Peeks.{answer_along, head_at, host_walk, is_steady_path, kind_of_base, link_text_at, name_or_none, peeked_of};
ghost use Rattle.kr_seen.specs.kr_model.ProcessDirectory.{name_text};
ghost use Rattle.kr_seen.specs.kr_model.State.{opened};
ghost use Rattle.kr_seen.specs.kr_ops.Meaning.{meaning};
ghost use Rattle.kr_seen.specs.kr_ops.Sound.{IsOfView};
ghost use Rattle.kr_seen.specs.Standing.{IsStanding};
ghost use Rattle.kr_seen.specs.Targets.{target_told};
ghost use Rattle.kr_seen.specs.kr_tree.declared.place.Host.TheVariants.{Node, Proc};
ghost use Rattle.kr_hostview.specs.OnHost.{number};
ghost use Rattle.kr_hostview.specs.Peeking.{IsFound, kind_at, target_name};

use crate::target::{carries_one_mount, standing_target};
use crate::view::host_procs;
use kr_seen::below::{
    BaseKind, Bytes, Errno, Host, HostMount, Ino, Kind, NoMemory, PeekFault, PeekKind, Places,
    Plain, ProcAt, Reach, Right, State, Target, WalkFault, WalkMode, What, proc_name, resolve,
};
use kr_seen::guest::{guest_text, text_to};
use kr_seen::target::Target as Led;
use std::alloc::Global;

/// The kind of what a host path leads to. It fails as the walk there does. In `unmet` it is noted where the walk looks up a name in the process
/// directory, as in the next two.
pub fn kind<T: Copy, const M: u8>(
    alloc: Global,
    state: &State<T, M>,
    caller: u32,
    host: &[u8],
    unmet: &mut bool,
) -> Result<PeekKind, PeekFault>
    requires { IsOfView state.now }
    ensures answer { IsPeeked ((peeked_of (meaning state.now) caller).kind host.now) result }
    ensures noted { IsNoted (unmet.old && is_steady_path (meaning state.now) caller host.now) unmet.new result }
{
    match find(alloc, state, caller, host, unmet)? {
        Some(object) => kind_of(state, object),
        None => Err(PeekFault::Err(Errno::ENOENT)),
    }
}

/// The text of the link to which a host path leads.
pub fn link_text<T: Copy, const M: u8>(
    alloc: Global,
    state: &State<T, M>,
    caller: u32,
    host: &[u8],
    unmet: &mut bool,
) -> Result<Bytes, PeekFault>
    requires { IsOfView state.now }
    ensures answer { IsPeeked ((peeked_of (meaning state.now) caller).link_text host.now) result }
    ensures noted { IsNoted (unmet.old && is_steady_path (meaning state.now) caller host.now) unmet.new result }
{
    match find(alloc, state, caller, host, unmet)? {
        Some(object) => text_of(alloc, state, caller, object),
        None => Err(PeekFault::Err(Errno::ENOENT)),
    }
}

/// The first bytes of the file to which a host path leads.
pub fn head<T: Copy, const M: u8>(
    alloc: Global,
    state: &State<T, M>,
    caller: u32,
    host: &[u8],
    n: u32,
    unmet: &mut bool,
) -> Result<Bytes, PeekFault>
    requires { IsOfView state.now }
    ensures answer { IsPeeked ((peeked_of (meaning state.now) caller).head host.now n) result }
    ensures noted { IsNoted (unmet.old && is_steady_path (meaning state.now) caller host.now) unmet.new result }
{
    match find(alloc, state, caller, host, unmet)? {
        Some(object) => head_of(alloc, state, object, n),
        None => Err(PeekFault::Err(Errno::ENOENT)),
    }
}

/// Whether the walk along a host path looks up no name in the process directory, wherever it ends.
pub fn steady<T: Copy, const M: u8>(
    alloc: Global,
    state: &State<T, M>,
    caller: u32,
    host: &[u8],
) -> Result<bool, NoMemory>
    requires { IsOfView state.now }
    ensures { IfOk result (λ steady. steady ≡ is_steady_path (meaning state.now) caller host.now) }
{
    let mut reach = nowhere();
    match walked(alloc, state, caller, host, &mut reach) {
        Ok(_target) => Ok(!reach.met_proc),
        Err(WalkFault::Err(_errno)) => Ok(!reach.met_proc),
        Err(WalkFault::NoMemory) => Err(NoMemory),
    }
}

/// What a descriptor of a process is.
pub fn base_kind<T: Copy, const M: u8>(state: &State<T, M>, pid: u32, fd: u32) -> BaseKind
    requires { IsOfView state.now }
    ensures { result ≡ kind_of_base (opened pid fd (meaning state.now)) }
{
    carries_one_mount(state);
    match state.opened(pid, fd) {
        Some(opened) => match opened.what {
            What::Dir => BaseKind::Dir,
            What::File
            | What::In
            | What::Out
            | What::Err
            | What::PipeRead(_)
            | What::PipeWrite(_) => BaseKind::Other,
        },
        None => BaseKind::Closed,
    }
}

/// The host name of what a descriptor of a process is open for, if it has one.
pub fn base_name<T: Copy, const M: u8>(
    alloc: Global,
    state: &State<T, M>,
    pid: u32,
    fd: u32,
) -> Result<Option<Bytes>, NoMemory>
    requires { IsOfView state.now }
    ensures { IfOk result (λ name. name ≡ base_name (meaning state.now) pid fd) }
{
    place_name(alloc, state, standing_target(state, ProcAt::Fd(pid, fd)))
}

/// The host name of a process's working directory, if it has one.
pub fn cwd_name<T: Copy, const M: u8>(
    alloc: Global,
    state: &State<T, M>,
    pid: u32,
) -> Result<Option<Bytes>, NoMemory>
    requires { IsOfView state.now }
    ensures { IfOk result (λ name. name ≡ cwd_name (meaning state.now) pid) }
{
    place_name(alloc, state, standing_target(state, ProcAt::Cwd(pid)))
}

/// The host name of a process's executable, if it has one.
pub fn exe_name<T: Copy, const M: u8>(
    alloc: Global,
    state: &State<T, M>,
    pid: u32,
) -> Result<Option<Bytes>, NoMemory>
    requires { IsOfView state.now }
    ensures { IfOk result (λ name. name ≡ exe_name (meaning state.now) pid) }
{
    place_name(alloc, state, standing_target(state, ProcAt::Exe(pid)))
}

/// What a host path leads to, where a last link isn't followed.
fn find<T: Copy, const M: u8>(
    alloc: Global,
    state: &State<T, M>,
    caller: u32,
    host: &[u8],
    unmet: &mut bool,
) -> Result<Option<Host>, PeekFault>
    requires { IsOfView state.now }
    ensures found { IsFound (answer_along (meaning state.now) caller host.now) result }
    ensures noted { IsNoted (unmet.old && is_steady_path (meaning state.now) caller host.now) unmet.new result }
{
    let mut reach = nowhere();
    match walked(alloc, state, caller, host, &mut reach) {
        Ok(target) => {
            *unmet = unmet_behind(*unmet, reach);
            Ok(found_in(target))
        }
        Err(WalkFault::Err(errno)) => {
            *unmet = unmet_behind(*unmet, reach);
            Err(PeekFault::Err(errno))
        }
        Err(WalkFault::NoMemory) => Err(PeekFault::NoMemory),
    }
}

/// Whether the process directory is unmet still, behind a walk that reached so much.
fn unmet_behind(unmet: bool, reach: Reach) -> bool
    ensures { result ≡ (unmet && not reach.met_proc) }
{
    unmet && !reach.met_proc
}

/// The object that a walk found.
fn found_in(target: Target<HostMount>) -> Option<Host>
    ensures { result ≡ option_map (λ p. p.host) target.found }
{
    match target.found {
        Some(place) => Some(place.host),
        None => None,
    }
}

/// Nothing was reached yet.
fn nowhere() -> Reach
    ensures { result ≡ nothing }
{
    Reach {
        longest: 0,
        met_proc: false,
    }
}

/// Where the walk along a host path ends, if a last link isn't followed, and what it reaches.
fn walked<T: Copy, const M: u8>(
    alloc: Global,
    state: &State<T, M>,
    caller: u32,
    host: &[u8],
    reach: &mut Reach,
) -> Result<Target<HostMount>, WalkFault>
    requires { IsOfView state.now }
    ensures answer { IsAnswer number (answer_along (meaning state.now) caller host.now) result }
    ensures reach { let s = meaning state.now in
        IsReached (host_around_of s caller) LookLink (host_walk s caller LookLink host.now) reach.old reach.new result }
{
    let places = Plain::new();
    let procs = host_procs(alloc, state);
    resolve(
        alloc,
        &places,
        &procs,
        &state.tree,
        state.user,
        caller,
        places.root(),
        host,
        WalkMode::LookLink,
        reach,
    )
}

/// The kind of an object.
fn kind_of<T: Copy, const M: u8>(state: &State<T, M>, object: Host) -> Result<PeekKind, PeekFault>
    ensures { (caller : ℕ) → IsPeeked (kind_at (meaning state.now) caller object) result }
{
    match object {
        Host::Node(ino) => match state.tree.kind(ino) {
            Some(Kind::Dir) | Some(Kind::Proc) => Ok(PeekKind::Dir),
            Some(Kind::File) => Ok(PeekKind::File),
            Some(Kind::Link) => Ok(PeekKind::Link),
            None => Err(PeekFault::Err(Errno::ENOENT)),
        },
        Host::Proc(_, at) => Ok(process_kind(state, at)),
    }
}

/// The kind of what stands in the process directory.
fn process_kind<T: Copy, const M: u8>(state: &State<T, M>, at: ProcAt) -> PeekKind
    ensures { (caller i : ℕ) → kind_at (meaning state.now) caller (Proc i at) ≡ Ok result }
{
    match at {
        ProcAt::SelfLink => PeekKind::Link,
        ProcAt::Dir(_) | ProcAt::FdDir(_) => PeekKind::Dir,
        ProcAt::Cwd(_) | ProcAt::Root(_) | ProcAt::Exe(_) | ProcAt::Fd(_, _) => PeekKind::Jump,
    }
}

/// The text of a link.
fn text_of<T: Copy, const M: u8>(
    alloc: Global,
    state: &State<T, M>,
    caller: u32,
    object: Host,
) -> Result<Bytes, PeekFault>
    requires { IsOfView state.now }
    ensures { IsPeeked (link_text_at (meaning state.now) caller object) result }
{
    match object {
        Host::Node(ino) => match state.tree.link_text(ino) {
            Some(text) => {
                let copy = Bytes::copy(alloc, text)?;
                Ok(copy)
            }
            None => Err(PeekFault::Err(Errno::EINVAL)),
        },
        Host::Proc(_, at) => process_text(alloc, state, caller, at),
    }
}

/// The text of a link of the process directory: of `self` its own, of others the host name of their object, or the kernel's text of a pipe
/// or of the console.
fn process_text<T: Copy, const M: u8>(
    alloc: Global,
    state: &State<T, M>,
    caller: u32,
    at: ProcAt,
) -> Result<Bytes, PeekFault>
    requires { IsOfView state.now }
    ensures { (i : ℕ) → IsPeeked (link_text_at (meaning state.now) caller (Proc i at)) result }
{
    match at {
        ProcAt::SelfLink => {
            let number = proc_name(alloc, ProcAt::Dir(caller))?;
            Ok(number)
        }
        ProcAt::Dir(_) | ProcAt::FdDir(_) => Err(PeekFault::Err(Errno::EINVAL)),
        ProcAt::Cwd(pid) => named(cwd_name(alloc, state, pid)?),
        ProcAt::Root(_) => named(root_name(alloc, state)?),
        ProcAt::Exe(pid) => named(exe_name(alloc, state, pid)?),
        ProcAt::Fd(pid, fd) => named(base_text(alloc, state, pid, fd)?),
    }
}

/// The text of a descriptor's link, if what it is open for has one.
fn base_text<T: Copy, const M: u8>(
    alloc: Global,
    state: &State<T, M>,
    pid: u32,
    fd: u32,
) -> Result<Option<Bytes>, NoMemory>
    requires { IsOfView state.now }
    ensures { IfOk result (λ text. text ≡ base_text (meaning state.now) pid fd) }
{
    carries_one_mount(state);
    let places = Plain::new();
    text_to(
        alloc,
        &places,
        state,
        standing_target(state, ProcAt::Fd(pid, fd)),
    )
}

/// The text of what a link leads to, which an object that lost its name hasn't.
fn named(name: Option<Bytes>) -> Result<Bytes, PeekFault>
    ensures { IsPeeked (name_or_none name) result }
{
    match name {
        Some(text) => Ok(text),
        None => Err(PeekFault::Err(Errno::ENOENT)),
    }
}

/// The host name of the host's root.
fn root_name<T: Copy, const M: u8>(
    alloc: Global,
    state: &State<T, M>,
) -> Result<Option<Bytes>, NoMemory>
    requires { IsOfView state.now }
    ensures { IfOk result (λ name. name ≡ name_text (host_space (meaning state.now)) (root_place plain) 0 []) }
{
    carries_one_mount(state);
    let places = Plain::new();
    guest_text(alloc, &places, state, places.root(), 0, b"")
}

/// The host name of what a link of the process directory leads to, if it is a place that has one.
fn place_name<T: Copy, const M: u8>(
    alloc: Global,
    state: &State<T, M>,
    target: Led<'_, HostMount>,
) -> Result<Option<Bytes>, NoMemory>
    requires of_view { IsOfView state.now }
    requires stands { IsStanding number state.now.tree plain (target_told target) }
    ensures { IfOk result (λ name. name ≡ target_name (host_space (meaning state.now)) (target_told target.entry)) }
{
    carries_one_mount(state);
    match target {
        Led::Nothing | Led::Unplaced(_) => Ok(None),
        Led::At(place, dir, name) => {
            let places = Plain::new();
            guest_text(alloc, &places, state, place, dir, name)
        }
    }
}

/// The first bytes of a file that the user may execute.
fn head_of<T: Copy, const M: u8>(
    alloc: Global,
    state: &State<T, M>,
    object: Host,
    n: u32,
) -> Result<Bytes, PeekFault>
    ensures { IsPeeked (head_at state.now.tree state.now.user n object) result }
{
    match object {
        Host::Node(ino) => file_head(alloc, state, ino, n),
        Host::Proc(_, _) => Err(PeekFault::Err(Errno::EACCES)),
    }
}

/// The first bytes of an inode that is a file which the user may execute.
fn file_head<T: Copy, const M: u8>(
    alloc: Global,
    state: &State<T, M>,
    ino: Ino,
    n: u32,
) -> Result<Bytes, PeekFault>
    ensures { IsPeeked (head_at state.now.tree state.now.user n (Node ino)) result }
{
    let Some(bytes) = state.tree.file(ino) else {
        return Err(PeekFault::Err(Errno::EACCES));
    };
    if !state.tree.may(state.user, ino, Right::Search) {
        return Err(PeekFault::Err(Errno::EACCES));
    }
    let copy = Bytes::copy(alloc, front(bytes, n))?;
    Ok(copy)
}

/// The first `n` bytes, or all where there are fewer.
fn front(bytes: &[u8], n: u32) -> &[u8]
    ensures { result.now ≡ take n bytes.now }
{
    let end = bytes.len().min(n as usize);
    &bytes[..end]
}

/// Names that are told of a lawful state are texts.
pub(crate) fn told_names_are_texts<T: Copy, const M: u8>(state: &State<T, M>)
    requires { IsOfView state.now }
    ensures { (caller : ℕ) → NamesAreTexts (peeked_of (meaning state.now) caller) }
{
    numbers_are_small(state);
}

/// Numbers of processes have 32 bits.
fn numbers_are_small<T, const M: u8>(state: &State<T, M>)
    ensures { state.now.next_pid < 2 ^ 32 }
{
    // For the proof alone: the field has 32 bits.
    let _next = state.next_pid;
}

//! The state in which a run begins: a tree in which the sources of the mounts are held, the console, and one process.
ghost use Rattle.std.specs.Prelude.{◌≡◌, ◌+◌, ◌<◌, ◌≤◌, ◌^◌, ℕ, suc, List, length, IsSome, IsTrue, IfOk, OnOk, true, false};
ghost use Rattle.elf_load.specs.rv_mem.Memory.{page_count};
ghost use Rattle.kr_text.specs.kr_tree.declared.place.Host.{Host};
ghost use Rattle.kr_text.specs.kr_tree.Tree.{inode};
ghost use Rattle.kr_text.specs.kr_tree.Changes.{held};
ghost use Rattle.kr_text.specs.kr_tree.Holds.{holds_at};
ghost use Rattle.law_walks.specs.kr_view.View.{Row, StandsIn};
ghost use Rattle.law_walks.specs.kr_model.Applied.{in_mount, open_in};
ghost use Rattle.law_walks.specs.kr_model.Lawful.{IsLawful, IsNameOrNone};
ghost use Rattle.kr_ops.specs.Meaning.{meaning};
ghost use Rattle.kr_ops.specs.Sound.{IsOfView, IsServed};
ghost use Rattle.law_walks.specs.kr_model.State.{inode_of, process};
ghost use Rattle.kr_start.specs.Start.{console, first_of, first_pid, held_once, is_console, pinned, started, with_console, with_first, without_processes, AreOpenBelow, CanBegin, First, HasNoHolds, IsIdle, IsOpenTo, IsReady};

use elf_load::Image;
use elf_load::below::pr_base::{Bytes, NoMemory};
use elf_load::below::rv_mem::{Room, Use};
use kr_ops::laws::lawful_states_are_sound;
use kr_ops::{Process, State};
use kr_text::below::kr_tree::laws::trees_are_kept;
use kr_text::below::kr_tree::{Host, Ino, Place, Tree, User};
use law_walks::below::{Descs, Files, FilesRefusal, Opened, Places, What};
use std::alloc::Global;

/// The number of the first process, and that of its parent, which never lives.
const FIRST: u32 = 2;

const NO_PROCESS: u32 = 1;

/// What the group and others may not do with what a run makes, before it says otherwise: write.
const UMASK: u16 = 0o022;

/// A state before a process lives, over a tree that nothing holds and in which the view's mounts stand: each source of a mount is
/// held once, and the console has its input.
pub fn idle<P: Places, const M: u8>(
    alloc: Global,
    places: &P,
    tree: Tree,
    user: User,
    input: Bytes,
) -> State<P::Mount, M>
    requires stands { StandsIn tree (P.mounts places.now) }
    requires few { length (P.mounts places.now) < 2 ^ 32 }
    requires free { HasNoHolds tree }
    ensures state { meaning result ≡ without_processes (pinned (P.mounts places.now) tree) user input }
    ensures lawful { IsLawful P.number (P.mounts places.now) (meaning result) }
    ensures served { IsServed result }
    ensures begins { (first : First P.Mount) → CanBegin P.number (P.mounts places.now) tree first → CanBegin P.number (P.mounts places.now) result.tree first }
{
    let mut tree = tree;
    trees_are_kept(&tree);
    pin(places, &mut tree);
    State {
        tree,
        user,
        files: Files::new(alloc),
        room: Room::new(),
        input,
        taken: 0,
        out: Bytes::new(alloc),
        err: Bytes::new(alloc),
        living: Vec::new(alloc),
        ended: Vec::new(alloc),
        next_pid: FIRST,
    }
}

/// Puts the first process into a state in which none lived: what it computes on, with the pages that it has as the room, its working
/// directory, its executable and the entry that this remembers, an empty name where it has none. Descriptor 0 reads the input, 1 and 2
/// write the output and the error. After want of memory the state may only be dropped.
pub fn begin<T: Copy, const M: u8>(
    alloc: Global,
    state: &mut State<T, M>,
    room: Room,
    image: Image<M>,
    cwd: Place<T>,
    exe: Place<T>,
    exe_dir: Ino,
    exe_name: Bytes,
) -> Result<(), NoMemory>
    requires ready { IsReady (first_of image cwd exe exe_dir exe_name) state.old }
    requires room { room ≡ page_count image.mem.pages }
    ensures begins { OnOk result (meaning state.new ≡ started (first_of image.entry cwd exe exe_dir exe_name) (meaning state.old)) }
    ensures lawful { OnOk result ((number : T → ℕ) (table : List Row) → IsLawful number table (meaning state.old) →
        CanBegin number table state.old.tree (first_of image.entry cwd exe exe_dir exe_name) → IsLawful number table (meaning state.new)) }
    ensures served { OnOk result (IsServed state.new) }
{
    // For the proof alone: what holds of every memory, and how many pages it may have.
    let _kept = image.mem.can(0, 0, Use::Read);
    let _pages = image.mem.pages();
    state.living.reserve(1)?;
    state.tree.hold(inode_of(cwd.host));
    state.tree.hold(inode_of(exe.host));
    state.room = room;
    state.next_pid = FIRST + 1;
    state.living.push_reserved(Process {
        pid: FIRST,
        parent: NO_PROCESS,
        regs: image.regs,
        mem: image.mem,
        brk_start: image.brk,
        brk: image.brk,
        descs: Descs::new(alloc),
        cwd,
        exe,
        exe_dir,
        exe_name,
        umask: UMASK,
        waits: false,
    });
    open_console(alloc, state)
}

/// Holds an inode once, if it isn't held yet.
fn hold_once(tree: &mut Tree, ino: Ino)
    requires { IsSome (inode tree.old ino) }
    ensures { tree.new ≡ held_once ino tree.old }
{
    if tree.holds(ino) == 0 {
        tree.hold(ino);
    }
}

/// Holds each source of the view's mounts once, in a tree that nothing holds.
fn pin<P: Places>(places: &P, tree: &mut Tree)
    requires stands { StandsIn tree.old (P.mounts places.now) }
    requires few { length (P.mounts places.now) < 2 ^ 32 }
    ensures { tree.new ≡ pinned (P.mounts places.now) tree.old }
{
    let mut k = 0;
    while let Some(row) = places.row(k) {
        hold_once(tree, row.source);
        k += 1;
    }
}

/// The inode of an object; what stands in the process directory has that directory's.
fn inode_of(host: Host) -> Ino
    ensures { result ≡ inode_of host }
{
    match host {
        Host::Node(ino) | Host::Proc(ino, _) => ino,
    }
}

/// Opens a part of the console under the lowest free descriptor of the first process.
fn open_part<T: Copy, const M: u8>(
    alloc: Global,
    state: &mut State<T, M>,
    what: What,
    read: bool,
    write: bool,
) -> Result<(), NoMemory>
    requires part { IsTrue (is_console what) }
    requires at { (n : ℕ) × (n < 1024) × IsOpenTo n state.old }
    ensures opens { OnOk result ((n : ℕ) → n < 1024 → IsOpenTo n state.old → (m : T) → meaning state.new ≡ open_in first_pid n false (console what read write) m (meaning state.old)) }
    ensures next { OnOk result ((n : ℕ) → n < 1024 → IsOpenTo n state.old → IsOpenTo (suc n) state.new) }
    ensures lawful { OnOk result ((number : T → ℕ) (table : List Row) → IsLawful number table (meaning state.old) → IsLawful number table (meaning state.new)) }
{
    let part = Opened {
        place: None,
        dir: 0,
        name: Bytes::new(alloc),
        what,
        read,
        write,
        append: false,
        at: 0,
    };
    match state.open(FIRST, part, false) {
        Ok(_) => Ok(()),
        Err(FilesRefusal::NoMemory) => Err(NoMemory),
        Err(FilesRefusal::Full) => unreachable!(),
    }
}

/// Opens the console: 0 to read the input, 1 to write the output, 2 to write the error.
fn open_console<T: Copy, const M: u8>(
    alloc: Global,
    state: &mut State<T, M>,
) -> Result<(), NoMemory>
    requires { IsOpenTo 0 state.old }
    ensures opens { OnOk result ((m : T) → meaning state.new ≡ with_console m (meaning state.old)) }
    ensures lawful { OnOk result ((number : T → ℕ) (table : List Row) → IsLawful number table (meaning state.old) → IsLawful number table (meaning state.new)) }
    ensures served { OnOk result (IsServed state.new) }
{
    open_part(alloc, state, What::In, true, false)?;
    open_part(alloc, state, What::Out, false, true)?;
    open_part(alloc, state, What::Err, false, true)
}

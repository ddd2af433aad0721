//! A new program in place of that of a process.
ghost use Rattle.std.specs.Prelude.{◌≡◌, ◌+◌, false, true, IfOk, IsErrOf, OnErr, OnOk};
ghost use Rattle.elf_load.specs.Image.{image_exceeds, program_break};
ghost use Rattle.kr_exec.specs.Interpreters.{bytes_at};
ghost use Rattle.kr_execve.specs.Execution.{ids_of, image_of};
ghost use Rattle.kr_execve.specs.Executing.{Gives, IsLoadable, IsReadyFor, Loads, Puts};
ghost use Rattle.kr_perform.specs.kr_model.State.{process};
ghost use Rattle.kr_perform.specs.kr_ops.Sound.{IsSoundFor};
ghost use Rattle.kr_exec.specs.kr_tree.declared.place.Host.TheVariants.{Node};
ghost use Rattle.elf_load.specs.rv_mem.Memory.{page_count};
ghost use Rattle.elf_load.specs.rv_mem.Pages.{IsPlaced, IsWhole};

use elf_load::below::rv_mem::{ALL_PAGES, Room, Use};
use elf_load::{Image, LoadFault, load};
use kr_exec::ExecPlan;
use kr_perform::below::{Errno, Ino, State, Tree, User, WalkFault, lawful_states_are_sound};
use std::alloc::Global;

/// The bytes of a file; none of what is none.
fn bytes_of(tree: &Tree, file: Ino) -> &[u8]
    ensures { result.now ≡ bytes_at tree.now (Node file) }
{
    match tree.file(file) {
        Some(bytes) => bytes,
        None => &[],
    }
}

/// What a plan loads: ENOMEM where it has more pages than a process may have, or than are left in the room, in which its pages are
/// counted then.
fn image_of<T: Copy, const M: u8>(
    alloc: Global,
    tree: &Tree,
    user: User,
    room: &mut Room,
    plan: &ExecPlan<T>,
) -> Result<Image<M>, WalkFault>
    requires { IsLoadable tree.now plan.now }
    ensures gives { Gives tree.now user plan.now room.old room.new result }
    ensures whole { IfOk result (λ image. IsWhole image.mem.pages) }
    ensures placed { IfOk result (λ image. IsPlaced image.mem.pages) }
{
    let file = bytes_of(tree, plan.file);
    let ids = [user.uid, user.uid, user.gid, user.gid];
    match load(alloc, room, file, &plan.plan, &plan.args, &plan.env, ids) {
        Ok(image) => {
            // For the proof alone: what holds of every memory.
            let _can = image.mem.can(0, 0, Use::Read);
            Ok(image)
        }
        Err(LoadFault::TooManyPages) => Err(WalkFault::Err(Errno::ENOMEM)),
        Err(LoadFault::TooManyArgs) => unreachable!(),
        Err(LoadFault::NoMemory) => Err(WalkFault::NoMemory),
    }
}

/// Loads a plan in place of what a living process computes on: ENOMEM, with nothing changed, where there are too many pages, those of
/// its own memory among them.
fn replace_image<T: Copy, const M: u8>(
    alloc: Global,
    state: &mut State<T, M>,
    pid: u32,
    plan: &ExecPlan<T>,
) -> Result<(), WalkFault>
    requires caller { IsSoundFor pid state.old }
    requires loadable { IsLoadable state.old.tree plan.now }
    ensures { Loads pid plan.now state.old state.new result }
{
    let Some(k) = state.index_of(pid) else {
        unreachable!();
    };
    let image = image_of(alloc, &state.tree, state.user, &mut state.room, plan)?;
    let process = &mut state.living[k];
    process.mem.unmap(&mut state.room, 0, ALL_PAGES);
    process.regs = image.regs;
    process.mem = image.mem;
    process.brk_start = image.brk;
    process.brk = image.brk;
    Ok(())
}

/// Puts a planned program in place of that of a living process: what it computes on and its executable are new, and the descriptors
/// that a new program doesn't get are closed. ENOMEM, with nothing changed, where there are too many pages.
pub fn put<T: Copy, const M: u8>(
    alloc: Global,
    state: &mut State<T, M>,
    pid: u32,
    plan: ExecPlan<T>,
) -> Result<(), WalkFault>
    requires { IsReadyFor pid plan state.old }
    ensures { Puts pid plan state.old state.new result }
{
    lawful_states_are_sound::<T, M>();
    replace_image(alloc, state, pid, &plan)?;
    state.replace_executable(pid, plan.place, plan.dir, plan.name);
    state.close_on_exec(pid);
    Ok(())
}

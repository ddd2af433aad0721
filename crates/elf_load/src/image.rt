//! A program as it starts.
ghost use Rattle.std.specs.Prelude.{◌≡◌, ◌+◌, ◌≤◌, ◌↔◌, All, None, false, IfOk, IsErrOf, IsTrue, OnErr, OnOk, replicate, slice_set};
ghost use Rattle.elf_read.specs.Plans.{plan_of, planned};
ghost use Rattle.elf_read.specs.Rules.{first_broken};
ghost use Rattle.rv_mem.specs.Memory.{page_count};
ghost use Rattle.elf_load.specs.FirstStack.{exceeds_arguments, pairs_of, stack_bytes, stack_pointer};
ghost use Rattle.elf_load.specs.Placed.{HoldsBytes, HoldsSegment};
ghost use Rattle.elf_load.specs.Image.{first_regs, image_exceeds, image_memory, program_break};

use crate::arguments::size_of;
use crate::fault::LoadFault;
use crate::segments::{exceed_limits, program_break, put_all};
use crate::stack::FirstStack;
use elf_read::{Plan, Segment};
use rv_mem::below::pr_base::Texts;
use rv_mem::{ALL_PAGES, MapFault, Regs, Room, Space};
use std::alloc::Global;

/// The register of the stack pointer.
const SP: usize = 2;

/// What a program starts with: its memory, its registers, and the address at which its data end.
#[derive(Drop)]
pub struct Image<const M: u8> {
    pub mem: Space<M>,
    pub regs: Regs,
    /// The page end of the last segment, from which brk(2) goes on.
    pub brk: u64,
}

// The segments of a plan.
fn segments_of(plan: &Plan) -> &[Segment]
    requires { plan.now.count ≤ 64 }
    ensures { result.now ≡ planned plan.now }
{
    &plan.segments[..usize::from(plan.count)]
}

// The registers of a program that starts at `entry` with this stack pointer.
fn first_regs(entry: u64, sp: u64) -> Regs
    ensures { result ≡ record { x = slice_set (replicate 32 0) 2 sp; pc = entry } }
{
    let mut x = [0; 32];
    x[SP] = sp;
    Regs { x, pc: entry }
}

/// Loads an accepted file by its plan: its segments with their rights, zeros up to their memory sizes,
/// and 1 MiB of stack with the arguments, the environment and what the program is told of itself. The
/// four numbers of `ids` are the real and the effective user and group.
///
/// The limits of arguments are tested first, then those of pages; neither test takes memory. The room
/// counts the pages of all processes; after every refusal it is as before.
pub fn load<const M: u8>(
    alloc: Global,
    room: &mut Room,
    file: &[u8],
    plan: &Plan,
    args: &Texts,
    env: &Texts,
    ids: [u32; 4],
) -> Result<Image<M>, LoadFault>
    // The plan is the one that the file's check gave.
    requires accepted { first_broken file.now ≡ None }
    requires plan { plan.now ≡ plan_of file.now }

    ensures args { IsErrOf result LoadFault.TooManyArgs ↔ IsTrue (exceeds_arguments args.now env.now) }
    ensures pages { IsErrOf result LoadFault.TooManyPages ↔ ((exceeds_arguments args.now env.now ≡ false) × IsTrue (image_exceeds room.old file.now plan.now args.now env.now ids)) }
    ensures within { OnOk result (image_exceeds room.old file.now plan.now args.now env.now ids ≡ false) }

    ensures memory { IfOk result (λ image. image.mem ≡ image_memory file.now plan.now args.now env.now ids) }
    ensures regs { IfOk result (λ image. image.regs ≡ first_regs plan.now args.now env.now) }
    ensures brk { IfOk result (λ image. image.brk ≡ program_break plan.now) }

    // So each segment of the file and the first stack stand in memory, address by address.
    ensures segments { IfOk result (λ image. All (HoldsSegment file.now image.mem.pages) (planned plan.now)) }
    ensures stack { IfOk result (λ image. HoldsBytes image.mem.pages (stack_pointer args.now env.now) (stack_bytes (pairs_of plan.now ids) args.now env.now)) }

    ensures room { IfOk result (λ image. room.new ≡ room.old + page_count image.mem.pages) }
    ensures err_room { OnErr result (room.new ≡ room.old) }
{
    let Some(size) = size_of(args, env) else {
        return Err(LoadFault::TooManyArgs);
    };
    let segments = segments_of(plan);
    if exceed_limits(room, segments) {
        return Err(LoadFault::TooManyPages);
    }
    let stack = FirstStack::new(alloc, plan, args, env, size, ids)?;
    let mut mem = Space::new(alloc);
    match put_all(&mut mem, room, file, segments, &stack) {
        Ok(()) => {}
        Err(MapFault::Full) => unreachable!(),
        Err(MapFault::NoMemory) => {
            mem.unmap(room, 0, ALL_PAGES);
            return Err(LoadFault::NoMemory);
        }
    }
    Ok(Image {
        mem,
        regs: first_regs(plan.entry, stack.sp),
        brk: program_break(segments),
    })
}

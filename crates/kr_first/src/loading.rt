//! The program of the first process in memory.
ghost use Rattle.std.specs.Prelude.{◌≡◌};
ghost use Rattle.kr_execve.specs.kr_exec.Interpreters.{bytes_at};
ghost use Rattle.kr_execve.specs.Executing.{IsLoadable};
ghost use Rattle.kr_first.specs.Started.{Gives};
ghost use Rattle.kr_start.specs.kr_tree.declared.place.Host.TheVariants.{Node};

use kr_execve::below::{ExecPlan, WalkFault};
use kr_start::below::{Errno, Image, Ino, LoadFault, Room, Tree, load};
use std::alloc::Global;

/// The bytes of a file; none of what is none.
fn bytes_of(tree: &Tree, file: Ino) -> &[u8]
    ensures { result.now ≡ bytes_at tree.now (Node file) }
{
    match tree.file(file) {
        Some(bytes) => bytes,
        None => &[],
    }
}

/// What a plan loads into an empty room, with the real and the effective user and the real and the effective group that the program
/// is told: ENOMEM where it has more pages than a process may have.
pub fn image_of<T: Copy, const M: u8>(
    alloc: Global,
    tree: &Tree,
    room: &mut Room,
    plan: &ExecPlan<T>,
    ids: [u32; 4],
) -> Result<Image<M>, WalkFault>
    requires empty { room.old ≡ 0 }
    requires loadable { IsLoadable tree.now plan.now }
    ensures { Gives tree.now ids plan.now room.new result }
{
    let file = bytes_of(tree, plan.file);
    match load(alloc, room, file, &plan.plan, &plan.args, &plan.env, ids) {
        Ok(image) => Ok(image),
        Err(LoadFault::TooManyPages) => Err(WalkFault::Err(Errno::ENOMEM)),
        Err(LoadFault::TooManyArgs) => unreachable!(),
        Err(LoadFault::NoMemory) => Err(WalkFault::NoMemory),
    }
}

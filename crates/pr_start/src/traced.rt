//! The start.
ghost use Rattle.std.specs.Prelude.{◌≡◌, [], not, true, IfOk};
ghost use Rattle.kr_core.specs.kr_mounts.Standing.{texts_of};
ghost use Rattle.kr_core.specs.kr_mounts.Stored.{table_of};
ghost use Rattle.kr_core.specs.kr_start.Ready.{IsReady};
ghost use Rattle.pt_tracer.specs.pt_bind.Binding.{rows_of};
ghost use Rattle.pt_tracer.specs.pt_canon.Canon.{texts_by};
ghost use Rattle.pt_first.specs.FirstPeeks.{first_peeked};
ghost use Rattle.pt_first.specs.GuestStart.{IsBegunNoting, guest_start, start_unmet};
ghost use Rattle.pr_start.specs.TracedBeginning.{BeginsTraced, traced_beginning, start_meets};

use kr_core::Kernel;
use kr_core::below::{First, Plain, Stage, StartFault};
use pt_first::below::{Bytes, Launch, Tree, User};
use pt_first::first;
use pt_first::laws::firsts_can_start;
use pt_tracer::Tracer;
use pt_tracer::below::{Tags, Walker};
use std::alloc::Global;

/// Starts a command in guest terms over the texts of settled bindings, in the name of their tree's user, on a plain kernel with its tracer.
/// A command without a slash is the first program of that name in the directories of PATH, ENOENT where there is none; else the errors
/// are those of execve(2).
pub fn start_traced(
    alloc: Global,
    stage: Stage,
    launch: Launch,
    input: Bytes,
    ids: Option<(u32, u32)>,
) -> Result<Kernel<Plain, Tracer, 0>, StartFault>
    requires ready { IsReady stage.tree stage.user (table_of stage.places) }
    requires texts { rows_of stage.texts ≡ texts_of (table_of stage.places) }
    ensures begins { BeginsTraced (traced_beginning (texts_of (table_of stage.places)) stage.tree stage.user ids launch input) result }
    ensures met { IfOk result (λ kernel. kernel.met ≡ start_meets (texts_of (table_of stage.places)) stage.tree stage.user launch) }
{
    let Stage {
        tree,
        user,
        texts,
        ..
    } = stage;
    firsts_can_start();
    let Ok(mut walker) = Walker::new(alloc, texts) else {
        return Err(StartFault::NoMemory);
    };
    let mut tags = Tags::new(alloc);
    match first_found(alloc, &mut walker, &mut tags, &tree, user, launch) {
        Ok(first) => {
            let tracer = Tracer::new(alloc, walker, tags, user, ids);
            Kernel::start(alloc, Plain::new(), tracer, tree, user, input, first)
        }
        Err(fault) => Err(fault),
    }
}

/// Finds the first process of a launch, as `first` does, by a walker without a pause, and lets it remember nothing of what is told before a process
/// lives.
fn first_found(
    alloc: Global,
    walker: &mut Walker,
    tags: &mut Tags,
    tree: &Tree,
    user: User,
    launch: Launch,
) -> Result<First, StartFault>
    requires unpaused { walker.old.pauses ≡ 0 }
    ensures begins { let texts = texts_by walker.old.table (first_peeked tree.now user) tags.old in
        IsBegunNoting (not (start_unmet texts launch true)) (guest_start texts launch) tags.old tags.new result }
    ensures walker { walker.new ≡ record { table = walker.old.table; pauses = 0; remembered = [] } }
{
    walker.pause();
    let found = first(alloc, walker, tags, tree, user, launch);
    walker.resume();
    found
}

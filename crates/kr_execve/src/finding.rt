//! The file of a new program, and its plan, over the state of a kernel.
ghost use Rattle.std.specs.Prelude.{◌≡◌, false, true, IfOk, Some};
ghost use Rattle.elf_load.specs.pr_base.declared.path.WalkMode.TheVariants.{Look};
ghost use Rattle.kr_exec.specs.Answers.{plan_numbered, Answers, Reaches};
ghost use Rattle.kr_exec.specs.Exec.{are_too_big, exec_plan, exec_reach};
ghost use Rattle.kr_exec.specs.Finding.{is_program, is_program_found, program_at, program_walk};
ghost use Rattle.kr_perform.specs.kr_model.Applied.{cwd_of};
ghost use Rattle.kr_perform.specs.kr_model.ProcessDirectory.{around_of};
ghost use Rattle.kr_perform.specs.kr_ops.Meaning.{meaning};
ghost use Rattle.kr_perform.specs.kr_ops.Sound.{IsLawfulIn, IsSoundFor};
ghost use Rattle.kr_perform.specs.kr_seen.Numbered.{state_numbered};
ghost use Rattle.kr_exec.specs.kr_tree.declared.place.Host.TheVariants.{Node};
ghost use Rattle.kr_exec.specs.kr_view.Answers.{target_numbered, IsAnswer, IsReached};
ghost use Rattle.kr_exec.specs.kr_view.Leads.{numbered};

use kr_exec::{ExecPlan, Lists, find_exec, plan_exec};
use kr_perform::below::{Place, Places, Reach, State, Target, WalkFault, procs};
use std::alloc::Global;

/// The working directory of a living process.
pub fn cwd_of<T: Copy, const M: u8>(state: &State<T, M>, pid: u32) -> Place<T>
    requires { IsSoundFor pid state.now }
    ensures { cwd_of pid (meaning state.now) ≡ Some result }
{
    match state.index_of(pid) {
        Some(k) => state.living[k].cwd,
        None => unreachable!(),
    }
}

/// Where the path of a call leads, if that is a file that the user may execute, and else EACCES.
pub fn find<P: Places, const M: u8>(
    alloc: Global,
    places: &P,
    state: &State<P::Mount, M>,
    pid: u32,
    base: Place<P::Mount>,
    path: &[u8],
    reach: &mut Reach,
) -> Result<Target<P::Mount>, WalkFault>
    requires { IsLawfulIn P.number (P.mounts places.now) state.now }
    ensures answer { let around = around_of (P.mounts places.now) pid (state_numbered P.number (meaning state.now)) in
        IsAnswer P.number (program_at around (numbered P.number base) path.now) result }
    ensures program { IfOk result (λ target. is_program_found state.now.tree state.now.user target.found ≡ true) }
    ensures reach { let around = around_of (P.mounts places.now) pid (state_numbered P.number (meaning state.now)) in
        IsReached around Look (program_walk around (numbered P.number base) path.now) reach.old reach.new result }
{
    let root = places.root();
    let procs = procs(alloc, places, state, &root);
    find_exec(
        alloc,
        places,
        &procs,
        &state.tree,
        state.user,
        pid,
        base,
        path,
        reach,
    )
}

/// What comes of a file that was found, with the lists that were read: the errors of its scripts and of the rules on ELF files.
pub fn plan<P: Places, const M: u8>(
    alloc: Global,
    places: &P,
    state: &State<P::Mount, M>,
    pid: u32,
    base: Place<P::Mount>,
    found: Target<P::Mount>,
    path: &[u8],
    lists: Lists,
    reach: &mut Reach,
) -> Result<ExecPlan<P::Mount>, WalkFault>
    requires state { IsLawfulIn P.number (P.mounts places.now) state.now }
    requires program { is_program_found state.now.tree state.now.user found.found ≡ true }
    ensures answer { let around = around_of (P.mounts places.now) pid (state_numbered P.number (meaning state.now)) in
        Answers (plan_numbered P.number) (exec_plan around (numbered P.number base) (target_numbered P.number found) path.now lists.args lists.env) result }
    ensures program { IfOk result (λ plan. is_program state.now.tree state.now.user plan.place.host ≡ true) }
    ensures file { IfOk result (λ plan. plan.place.host ≡ Node plan.file) }
    ensures fit { IfOk result (λ plan. are_too_big plan.args plan.env ≡ false) }
    ensures reach { let around = around_of (P.mounts places.now) pid (state_numbered P.number (meaning state.now)) in
        Reaches (exec_reach around (numbered P.number base) (target_numbered P.number found) path.now lists.args lists.env reach.old) reach.old reach.new result }
{
    let root = places.root();
    let procs = procs(alloc, places, state, &root);
    plan_exec(
        alloc,
        places,
        &procs,
        &state.tree,
        state.user,
        pid,
        base,
        found,
        path,
        lists,
        reach,
    )
}

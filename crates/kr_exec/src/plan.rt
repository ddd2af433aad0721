//! What a new program comes to before it is loaded.
ghost use Rattle.std.specs.Prelude.{◌≡◌, false, true, IfOk, Some};
ghost use Rattle.std.specs.Option.{option_map_or};
ghost use Rattle.kr_walk.specs.kr_tree.declared.place.Host.TheVariants.{Node};
ghost use Rattle.kr_walk.specs.kr_view.Answers.{target_numbered};
ghost use Rattle.kr_walk.specs.kr_view.Leads.{numbered};
ghost use Rattle.kr_walk.specs.kr_view.View.{source};
ghost use Rattle.kr_walk.specs.kr_view.Walk.{surroundings};
ghost use Rattle.kr_exec.specs.Answers.{plan_numbered, Answers, Reaches};
ghost use Rattle.kr_exec.specs.Exec.{are_too_big, exec_plan, exec_reach, inode_at, target_plan};
ghost use Rattle.kr_exec.specs.Finding.{is_program, is_program_found};

use crate::limits::{env_bytes, is_too_big};
use crate::lists::Lists;
use crate::scripts::{Command, Search, file_bytes};
use elf_read::below::pr_base::{Bytes, Errno, NoMemory, Texts};
use elf_read::{Plan, check};
use kr_walk::below::{Host, Ino, Place, Places, Procs, Reach, Target, Tree, User, WalkFault};
use std::alloc::Global;

/// A program that can be loaded: its file with the place where it was found, the directory and name that the executable
/// remembers, what the loader needs of the file, and what the program is given.
#[derive(Drop)]
pub struct ExecPlan<M> {
    pub file: Ino,
    pub place: Place<M>,
    pub dir: Ino,
    pub name: Bytes,
    pub plan: Plan,
    pub args: Texts,
    pub env: Texts,
}

/// The directory and name that an executable remembers.
#[derive(Drop)]
struct Entry {
    dir: Ino,
    name: Bytes,
}

/// What comes of a file that `find_exec` found, by the path as it was given: E2BIG of the lists, then the errors of
/// scripts, whose interpreters are found from the base, then ENOEXEC where the file in the end breaks a rule of ELF
/// files. What the walks reach is added to `reach`, also where this answers an error; after NoMemory a part of it.
pub fn plan_exec<P: Places, Q: Procs<Mount = P::Mount>>(
    alloc: Global,
    places: &P,
    procs: &Q,
    tree: &Tree,
    user: User,
    caller: u32,
    base: Place<P::Mount>,
    found: Target<P::Mount>,
    path: &[u8],
    lists: Lists,
    reach: &mut Reach,
) -> Result<ExecPlan<P::Mount>, WalkFault>
    requires program { is_program_found tree.now user found.found ≡ true }
    ensures answer { let around = surroundings P.number (P.mounts places.now) tree.now user (Q.finds procs.now caller) (Q.leads procs.now caller) in
        Answers (plan_numbered P.number) (exec_plan around (numbered P.number base) (target_numbered P.number found) path.now lists.args lists.env) result }
    ensures program { IfOk result (λ plan. is_program tree.now user plan.place.host ≡ true) }
    ensures file { IfOk result (λ plan. plan.place.host ≡ Node plan.file) }
    ensures fit { IfOk result (λ plan. are_too_big plan.args plan.env ≡ false) }
    ensures reach { let around = surroundings P.number (P.mounts places.now) tree.now user (Q.finds procs.now caller) (Q.leads procs.now caller) in
        Reaches (exec_reach around (numbered P.number base) (target_numbered P.number found) path.now lists.args lists.env reach.old) reach.old reach.new result }
{
    let Some(env_bytes) = env_bytes(&lists.env) else {
        return Err(WalkFault::Err(Errno::E2BIG));
    };
    if is_too_big(&lists.args, env_bytes) {
        return Err(WalkFault::Err(Errno::E2BIG));
    }
    let search = Search {
        alloc,
        places,
        procs,
        tree,
        user,
        caller,
    };
    let path = Bytes::copy(alloc, path)?;
    let command = Command {
        file: found,
        path,
        args: lists.args,
    };
    let last = search.expand(base, command, env_bytes, reach)?;
    file_plan(alloc, places, tree, last.file, last.args, lists.env)
}

/// The plan of a file that is no script: ENOEXEC where it breaks a rule of ELF files.
fn file_plan<P: Places>(
    alloc: Global,
    places: &P,
    tree: &Tree,
    file: Target<P::Mount>,
    args: Texts,
    env: Texts,
) -> Result<ExecPlan<P::Mount>, WalkFault>
    ensures answer { Answers (plan_numbered P.number) (target_plan (P.mounts places.now) tree.now env (target_numbered P.number file) args) result }
    ensures place { IfOk result (λ plan. file.found ≡ Some plan.place) }
    ensures file { IfOk result (λ plan. plan.file ≡ inode_at plan.place.host) }
    ensures lists { IfOk result (λ plan. (plan.args ≡ args) × (plan.env ≡ env)) }
{
    let Target {
        dir,
        name,
        found,
        ..
    } = file;
    let Some(place) = found else {
        return Err(WalkFault::Err(Errno::ENOEXEC));
    };
    let Ok(plan) = check(file_bytes(tree, place.host)) else {
        return Err(WalkFault::Err(Errno::ENOEXEC));
    };
    let entry = remembered(alloc, places, place.mount, dir.host, name)?;
    Ok(ExecPlan {
        file: inode_of(place.host),
        place,
        dir: entry.dir,
        name: entry.name,
        plan,
        args,
        env,
    })
}

/// The entry of a file that was found by a name in a directory: of the source of a mount the one at which it was settled.
fn remembered<P: Places>(
    alloc: Global,
    places: &P,
    mount: P::Mount,
    dir: Host,
    name: Bytes,
) -> Result<Entry, NoMemory>
    ensures { IfOk result (λ entry. (entry.dir, entry.name) ≡ option_map_or (λ e. e) (source (P.mounts places.now) (P.number mount)) (inode_at dir, name)) }
{
    match places.source(mount) {
        Some((dir, name)) => {
            let name = Bytes::copy(alloc, name)?;
            Ok(Entry { dir, name })
        }
        None => Ok(Entry {
            dir: inode_of(dir),
            name,
        }),
    }
}

/// The inode of an object; what is in the process directory has that of the process directory.
fn inode_of(host: Host) -> Ino
    ensures { result ≡ inode_at host }
{
    match host {
        Host::Node(ino) | Host::Proc(ino, _) => ino,
    }
}

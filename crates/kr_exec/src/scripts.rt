//! Scripts: files whose first line names the program that runs them.
ghost use Rattle.std.specs.Prelude.{◌≡◌, ◌≤◌, length, false, true, IfOk};
ghost use Rattle.elf_read.specs.pr_base.declared.path.WalkMode.TheVariants.{Look};
ghost use Rattle.kr_walk.specs.kr_view.Answers.{target_numbered, IsReached};
ghost use Rattle.kr_walk.specs.kr_view.Leads.{numbered};
ghost use Rattle.kr_calls.specs.Expansion.{is_script, is_too_big, most_scripts, new_args};
ghost use Rattle.kr_calls.specs.Scripts.{script_of, BeginsScript};
ghost use Rattle.kr_exec.specs.Answers.{around_of, running, Answers, IsExpanded, Reaches};
ghost use Rattle.kr_exec.specs.Finding.{is_program_found, program_at, program_walk};
ghost use Rattle.kr_exec.specs.Interpreters.{bytes_at, ends_of, found_bytes, head_of, interpreted, line_reach, paths_of, programs, told_program, walks_reach};

use crate::find::find_exec;
use crate::limits::is_too_big;
use elf_read::below::pr_base::{Bytes, Errno, NoMemory, Texts};
use kr_calls::script_line;
use kr_walk::below::{Host, Place, Places, Procs, Reach, Target, Tree, User, WalkFault};
use std::alloc::Global;

/// The most scripts that are expanded, one after the other.
const MOST_SCRIPTS: u32 = 5;

/// How many bytes of a file tell a script's line.
const HEAD_SIZE: usize = 256;

/// What a script begins with.
const SCRIPT_MARK: &[u8] = b"#!";

/// A file that is to be run, the path by which it was found, and its arguments.
#[derive(Drop)]
pub struct Command<M> {
    pub file: Target<M>,
    pub path: Bytes,
    pub args: Texts,
}

/// The bytes of what was found; none where it is no file.
pub fn bytes_of<M: Copy>(tree: &Tree, found: Option<Place<M>>) -> &[u8]
    ensures { result.now ≡ found_bytes tree.now found }
{
    match found {
        Some(place) => file_bytes(tree, place.host),
        None => &[],
    }
}

/// The bytes of a file; none of what is none.
pub fn file_bytes(tree: &Tree, host: Host) -> &[u8]
    ensures { result.now ≡ bytes_at tree.now host }
{
    match host {
        Host::Node(ino) => match tree.file(ino) {
            Some(bytes) => bytes,
            None => &[],
        },
        Host::Proc(..) => &[],
    }
}

/// As many of a file's first bytes as tell a script's line.
fn head_of<'a, M: Copy>(tree: &'a Tree, file: &Target<M>) -> &'a [u8]
    ensures head { result.now ≡ head_of tree.now file.now.found }
    ensures short { length result.now ≤ 256 }
{
    let bytes = bytes_of(tree, file.found);
    &bytes[..bytes.len().min(HEAD_SIZE)]
}

/// Whether a file that begins so is a script.
fn is_script(head: &[u8]) -> bool
    ensures test { result ≡ is_script head.now }
    ensures begins { result ≡ true → BeginsScript head.now }
{
    head.starts_with(SCRIPT_MARK)
}

/// The arguments of an interpreter: its own path, the argument on the line if there is one, the script's path, and the
/// old arguments but the first.
fn new_args(
    alloc: Global,
    interpreter: &[u8],
    argument: &[u8],
    path: Bytes,
    args: Texts,
) -> Result<Texts, NoMemory>
    ensures { IfOk result (λ new. new ≡ new_args interpreter.now argument.now path args) }
{
    let mut new = Vec::new(alloc);
    new.push(Bytes::copy(alloc, interpreter)?)?;
    if !argument.is_empty() {
        new.push(Bytes::copy(alloc, argument)?)?;
    }
    new.push(path)?;
    let mut old = args.into_vec();
    if !old.is_empty() {
        old.remove(0);
    }
    new.append(&mut old)?;
    Ok(Texts::from(new))
}

/// What interpreters are looked for in: the mounts, the tree, the user, and what the processes show to the caller.
#[derive(Clone, Copy)]
pub struct Search<'a, P, Q> {
    pub alloc: Global,
    pub places: &'a P,
    pub procs: &'a Q,
    pub tree: &'a Tree,
    pub user: User,
    pub caller: u32,
}

impl<'a, P: Places, Q: Procs<Mount = P::Mount>> Search<'a, P, Q> {
    /// The program that runs in the end, with its arguments: a file that is no script itself, and the interpreter in place
    /// of a script. ELOOP where there is one script too many, and else the errors of their lines in turn.
    pub fn expand(
        &self,
        base: Place<P::Mount>,
        command: Command<P::Mount>,
        env_bytes: usize,
        reach: &mut Reach,
    ) -> Result<Command<P::Mount>, WalkFault>
        requires few { env_bytes ≤ 131072 }
        requires program { is_program_found self.now.tree.now self.now.user command.file.found ≡ true }
        requires fit { is_too_big env_bytes command.args ≡ false }
        ensures answer { let around = around_of P.number P.mounts Q.finds Q.leads self.now in
            IsExpanded P.number (ends_of (programs around (numbered P.number base)) env_bytes most_scripts (running P.number command)) result }
        ensures program { IfOk result (λ last. is_program_found self.now.tree.now self.now.user last.file.found ≡ true) }
        ensures fit { IfOk result (λ last. is_too_big env_bytes last.args ≡ false) }
        ensures reach { let around = around_of P.number P.mounts Q.finds Q.leads self.now in
            Reaches (walks_reach around (numbered P.number base) (paths_of (programs around (numbered P.number base)) env_bytes most_scripts (running P.number command)) reach.old) reach.old reach.new result }
    {
        let mut command = command;
        let mut left = MOST_SCRIPTS;
        'scripts: loop {
            let head = head_of(self.tree, &command.file);
            if !is_script(head) {
                return Ok(command);
            }
            if left == 0 {
                return Err(WalkFault::Err(Errno::ELOOP));
            }
            command = self.interpreted(base, command, head, env_bytes, reach)?;
            left -= 1;
        }
    }

    /// The interpreter that a script's line names, with its arguments: ENOEXEC where the line is refused, then the errors of
    /// the walk to it and EACCES, then E2BIG.
    fn interpreted(
        &self,
        base: Place<P::Mount>,
        script: Command<P::Mount>,
        head: &[u8],
        env_bytes: usize,
        reach: &mut Reach,
    ) -> Result<Command<P::Mount>, WalkFault>
        requires few { env_bytes ≤ 131072 }
        requires short { length head.now ≤ 256 }
        requires begins { BeginsScript head.now }
        ensures answer { let around = around_of P.number P.mounts Q.finds Q.leads self.now in
            Answers (running P.number) (interpreted (programs around (numbered P.number base)) env_bytes script.path script.args (script_of head.now)) result }
        ensures program { IfOk result (λ next. is_program_found self.now.tree.now self.now.user next.file.found ≡ true) }
        ensures fit { IfOk result (λ next. is_too_big env_bytes next.args ≡ false) }
        ensures reach { let around = around_of P.number P.mounts Q.finds Q.leads self.now in
            Reaches (line_reach around (numbered P.number base) (script_of head.now) reach.old) reach.old reach.new result }
    {
        let Some((interpreter, argument)) = script_line(head) else {
            return Err(WalkFault::Err(Errno::ENOEXEC));
        };
        let file = self.find(base, interpreter, reach)?;
        let args = new_args(self.alloc, interpreter, argument, script.path, script.args)?;
        if is_too_big(&args, env_bytes) {
            return Err(WalkFault::Err(Errno::E2BIG));
        }
        let path = Bytes::copy(self.alloc, interpreter)?;
        Ok(Command { file, path, args })
    }

    /// The program at a path.
    fn find(
        &self,
        base: Place<P::Mount>,
        path: &[u8],
        reach: &mut Reach,
    ) -> Result<Target<P::Mount>, WalkFault>
        ensures answer { let around = around_of P.number P.mounts Q.finds Q.leads self.now in
            Answers (target_numbered P.number) (told_program (program_at around (numbered P.number base) path.now)) result }
        ensures program { IfOk result (λ target. is_program_found self.now.tree.now self.now.user target.found ≡ true) }
        ensures reach { let around = around_of P.number P.mounts Q.finds Q.leads self.now in
            IsReached around Look (program_walk around (numbered P.number base) path.now) reach.old reach.new result }
    {
        find_exec(
            self.alloc,
            self.places,
            self.procs,
            self.tree,
            self.user,
            self.caller,
            base,
            path,
            reach,
        )
    }
}

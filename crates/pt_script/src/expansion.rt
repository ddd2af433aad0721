//! Scripts: files whose first line names the program that runs them.
ghost use Rattle.std.specs.Prelude.{◌≡◌, ◌≤◌, length, IfOk, IfSome};
ghost use Rattle.std.specs.Option.{option_copied};
ghost use Rattle.pt_args.specs.pt_bind.Binding.{IsWritten};
ghost use Rattle.pt_args.specs.pt_canon.Canon.{IsAnswer, IsWalkNoted, texts_by};
ghost use Rattle.pt_args.specs.kr_calls.Expansion.{most_scripts};
ghost use Rattle.pt_args.specs.kr_calls.Scripts.{BeginsScript};
ghost use Rattle.pt_script.specs.Expanding.{ends_of, ends_unmet, expanded_at, expanded_from, expanded_unmet, interpreted, interpreted_unmet, shown_result, unmet_from};
ghost use Rattle.pt_args.specs.pt_canon.Leaving.{OnlyPeeks};
ghost use Rattle.pt_args.specs.pt_canon.Remembering.{Agrees, WalksOn};

use crate::arguments::{is_too_big, new_args};
use crate::command::Command;
use crate::finder::Finder;
use crate::program::is_script;
use pt_args::below::kr_calls::script_line;
use pt_args::below::pt_bind::Tags;
use pt_args::below::pt_canon::{WalkErr, Walker};
use pt_args::below::{Bytes, Errno, Peeks, Texts};
use pt_args::working_text;
use std::alloc::Global;

/// The most scripts that are expanded, one after the other.
const MOST_SCRIPTS: u8 = 5;

/// The program that runs in the end, in place of a path that a guest passed to execve(2).
#[derive(Drop)]
pub struct Expanded {
    /// Its host text.
    pub host: Bytes,
    /// The index of the binding to which its guest text belongs.
    pub index: u32,
    /// Its arguments.
    pub args: Texts,
    /// How many scripts led to it.
    pub scripts: u8,
}

/// The program that execve(2) runs in the end for a guest path, with its arguments: the file itself, or the interpreter in
/// place of a script, which is found as a guest path too. The errors come in this order: those of finding the file (ENOENT of a
/// working directory without a guest text, the errors of the walk, EACCES of what is no regular file that the user may
/// execute), then for each script in turn ELOOP where five were expanded before it, ENOEXEC where its line is refused, the
/// errors of finding its interpreter, and E2BIG where the new arguments are more than 4,096, or have with their ends and
/// the `env_bytes` of the environment more than 131,072 bytes. What the walker remembers must agree with what the kernel tells; it may remember
/// other answers then, also behind an error, and agrees still.
pub fn expand<K: Peeks>(
    alloc: Global,
    kernel: &mut K,
    walker: &mut Walker,
    tags: &Tags,
    pid: u32,
    path: &[u8],
    args: Texts,
    env_bytes: u32,
) -> Result<Expanded, WalkErr>
    requires agrees { Agrees walker.old (K.peeked kernel.old) }
    ensures answer { IsAnswer (expanded_at (texts_by walker.old.table (K.peeked kernel.old) tags.now) pid env_bytes path.now args) result }
    ensures walker { WalksOn (K.peeked kernel.old) walker.old walker.new }
    ensures noted { IsWalkNoted (expanded_unmet (texts_by walker.old.table (K.peeked kernel.old) tags.now) pid env_bytes path.now args (K.unmet kernel.old)) (K.unmet kernel.new) result }
    ensures kernel { OnlyPeeks K.peeked K.kept kernel.old kernel.new }
{
    let working = working_text(kernel, walker.table(), tags, pid)?;
    let working = bytes_of(&working);
    let finder = Finder {
        alloc,
        tags,
        working,
    };
    finder.expand_from(kernel, walker, path, args, env_bytes)
}

/// The bytes of a text, if there is one.
fn bytes_of(text: &Option<Bytes>) -> Option<&[u8]>
    ensures { option_copied result ≡ text.now }
{
    match text {
        Some(text) => Some(text.as_slice()),
        None => None,
    }
}

impl<'t, 'w> Finder<'t, 'w> {
    /// The program that execve(2) runs in the end, as `expand` finds it, from the working directory.
    pub fn expand_from<K: Peeks>(
        &self,
        kernel: &mut K,
        walker: &mut Walker,
        path: &[u8],
        args: Texts,
        env_bytes: u32,
    ) -> Result<Expanded, WalkErr>
        requires working { IfSome (option_copied self.now.working) IsWritten }
        requires agrees { Agrees walker.old (K.peeked kernel.old) }
        ensures answer { let texts = texts_by walker.old.table (K.peeked kernel.old) self.now.tags.now in
            IsAnswer (expanded_from texts (option_copied self.now.working) env_bytes path.now args) result }
        ensures walker { WalksOn (K.peeked kernel.old) walker.old walker.new }
        ensures noted { let texts = texts_by walker.old.table (K.peeked kernel.old) self.now.tags.now in
            IsWalkNoted (unmet_from texts (option_copied self.now.working) env_bytes path.now args (K.unmet kernel.old)) (K.unmet kernel.new) result }
        ensures kernel { OnlyPeeks K.peeked K.kept kernel.old kernel.new }
    {
        let program = self.program_from(kernel, walker, path)?;
        let path = Bytes::copy(self.alloc, path)?;
        let command = Command {
            program,
            path,
            args,
        };
        self.end_of(kernel, walker, command, env_bytes)
    }

    /// What a command comes to.
    fn end_of<K: Peeks>(
        &self,
        kernel: &mut K,
        walker: &mut Walker,
        command: Command,
        env_bytes: u32,
    ) -> Result<Expanded, WalkErr>
        requires working { IfSome (option_copied self.now.working) IsWritten }
        requires short { length command.program.head ≤ 256 }
        requires agrees { Agrees walker.old (K.peeked kernel.old) }
        ensures answer { let texts = texts_by walker.old.table (K.peeked kernel.old) self.now.tags.now in
            IsAnswer (shown_result (ends_of texts (option_copied self.now.working) env_bytes most_scripts command)) result }
        ensures walker { WalksOn (K.peeked kernel.old) walker.old walker.new }
        ensures noted { let texts = texts_by walker.old.table (K.peeked kernel.old) self.now.tags.now in
            IsWalkNoted (ends_unmet texts (option_copied self.now.working) env_bytes most_scripts command (K.unmet kernel.old)) (K.unmet kernel.new) result }
        ensures kernel { OnlyPeeks K.peeked K.kept kernel.old kernel.new }
    {
        let mut command = command;
        let mut scripts = 0;
        'scripts: loop {
            if !is_script(command.program.head.as_slice()) {
                return Ok(ended(command, scripts));
            }
            if scripts == MOST_SCRIPTS {
                return Err(WalkErr::Err(Errno::ELOOP));
            }
            command = self.interpreted(kernel, walker, command, env_bytes)?;
            scripts += 1;
        }
    }

    /// The interpreter that a script's line names, with its arguments.
    fn interpreted<K: Peeks>(
        &self,
        kernel: &mut K,
        walker: &mut Walker,
        script: Command,
        env_bytes: u32,
    ) -> Result<Command, WalkErr>
        requires working { IfSome (option_copied self.now.working) IsWritten }
        requires short { length script.program.head ≤ 256 }
        requires script { BeginsScript script.program.head }
        requires agrees { Agrees walker.old (K.peeked kernel.old) }
        ensures answer { let texts = texts_by walker.old.table (K.peeked kernel.old) self.now.tags.now in
            IsAnswer (interpreted texts (option_copied self.now.working) env_bytes script) result }
        ensures short { IfOk result (λ next. length next.program.head ≤ 256) }
        ensures walker { WalksOn (K.peeked kernel.old) walker.old walker.new }
        ensures noted { let texts = texts_by walker.old.table (K.peeked kernel.old) self.now.tags.now in
            IsWalkNoted (interpreted_unmet texts (option_copied self.now.working) script (K.unmet kernel.old)) (K.unmet kernel.new) result }
        ensures kernel { OnlyPeeks K.peeked K.kept kernel.old kernel.new }
    {
        let Command {
            program: file,
            path,
            args,
        } = script;
        let Some((interpreter, argument)) = script_line(file.head.as_slice()) else {
            return Err(WalkErr::Err(Errno::ENOEXEC));
        };
        let program = self.program_from(kernel, walker, interpreter)?;
        let args = new_args(self.alloc, interpreter, argument, path, args)?;
        if is_too_big(&args, env_bytes) {
            return Err(WalkErr::Err(Errno::E2BIG));
        }
        let path = Bytes::copy(self.alloc, interpreter)?;
        Ok(Command {
            program,
            path,
            args,
        })
    }
}

/// A command that runs as it is, once `scripts` scripts led to it.
fn ended(command: Command, scripts: u8) -> Expanded
    ensures { result ≡ record { host = command.program.host; index = command.program.index; args = command.args; scripts = scripts } }
{
    let Command { program, args, .. } = command;
    Expanded {
        host: program.host,
        index: program.index,
        args,
        scripts,
    }
}

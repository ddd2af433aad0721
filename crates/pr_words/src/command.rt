//! The word and the arguments of a command.
ghost use Rattle.std.specs.Prelude.{◌≡◌, IfOk};
ghost use Rattle.pr_words.specs.Command.{arguments, has_slash, word_of};

use pr_base::{Bytes, NoMemory, Texts};
use std::alloc::Global;

/// What runs without a command.
const SHELL: &[u8] = b"/bin/sh";

/// Whether a word has a slash, and is a path then.
pub fn has_slash(word: &[u8]) -> bool
    ensures { result ≡ has_slash word.now }
{
    word.iter().any(|byte| *byte == b'/')
}

/// The word of the command, which is the shell's path without one.
pub fn word_of(command: &Texts) -> &[u8]
    ensures { result.now ≡ word_of command.now }
{
    match command.at(0) {
        Some(word) => word,
        None => SHELL,
    }
}

/// The arguments, the first of which is the command's word.
pub fn arguments(alloc: Global, command: Texts) -> Result<Texts, NoMemory>
    ensures { IfOk result (λ args. args ≡ arguments command) }
{
    let mut args = command;
    if args.is_empty() {
        args.push(Bytes::copy(alloc, SHELL)?)?;
    }
    Ok(args)
}

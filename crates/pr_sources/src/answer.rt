//! What the top call answers.
ghost use Rattle.std.specs.Prelude.{Some, ◌≡◌, IfOk};
ghost use Rattle.std.specs.String.{string_bytes};
ghost use Rattle.pr_sources.specs.Answers.{line_of};
ghost use Rattle.pr_sources.specs.Names.{which_name};

use crate::why::{BindRule, TreeRule, WordRule};
use kr_start::below::{BindWhy, TreeWhy};
use pr_io::below::{Bytes, Errno, NoMemory};
use pr_words::Why;
use std::alloc::Global;
use std::fmt;

/// An object that is handed to the top call.
#[derive(Clone, Copy, PartialEq)]
pub enum Which {
    Tree,
    Elf,
    Input,
    Out,
    Err,
    Left,
}

impl fmt::Display for Which {
    ghost output = { λ which. Some (which_name which) };

    fn fmt<W: fmt::Write>(&self, f: &mut fmt::Formatter<W>) -> fmt::Result {
        f.write_str(match self {
            Which::Tree => "Tree",
            Which::Elf => "Elf",
            Which::Input => "Input",
            Which::Out => "Out",
            Which::Err => "Err",
            Which::Left => "Left",
        })
    }
}

/// How the top call ended.
#[derive(Clone, Copy)]
pub enum Answer {
    /// No process lives; the status is that of the process that ended last: its exit code, or 128 and the signal that killed it. Of a generated
    /// case it is 0 where both machines came to the same outcome, and else 1.
    Ended { status: u8 },
    /// A process lives, and none is ready.
    Deadlock,
    /// The stated number of turns was made, a process lives, and one is ready.
    Spent,
    /// The word, counted from 1, is the first that breaks a rule.
    Usage { word: u32, why: Why },
    /// A source has more bytes than are read of it.
    TooLong { which: Which },
    /// The line of the listing, counted from 1, is the first bad one.
    TreeBad { line: u32, why: TreeWhy },
    /// The binding, counted from 1, is the first that is refused; the root's is 0.
    BadBind { index: u32, why: BindWhy },
    /// The guest couldn't be started: the error of execve(2).
    NoStart { errno: Errno },
    /// A source failed.
    ReadFault { which: Which },
    /// A sink failed.
    WriteFault { which: Which },
    /// Memory ran out.
    NoMemory,
}

impl Answer {
    ghost use Rattle.std.specs.Prelude.{◌≡◌, IfOk};
    ghost use Rattle.pr_sources.specs.Answers.{status_of, line_of};

    /// The exit status of the program.
    pub fn status(&self) -> u8
        ensures { result ≡ status_of self.now }
    {
        match self {
            Answer::Ended { status } => *status,
            Answer::Deadlock => 123,
            Answer::Spent => 124,
            Answer::Usage { .. } | Answer::TooLong { .. } | Answer::TreeBad { .. } => 125,
            Answer::BadBind { .. } | Answer::NoStart { .. } => 125,
            Answer::ReadFault { .. } | Answer::WriteFault { .. } => 122,
            Answer::NoMemory => 121,
        }
    }

    /// What the program writes to its standard error at last: nothing where the guest ended, else a line.
    pub fn line(&self, alloc: Global) -> Result<Bytes, NoMemory>
        ensures { IfOk result (λ line. line ≡ line_of self.now) }
    {
        let line = match self {
            Answer::Ended { .. } => String::new(alloc),
            Answer::Deadlock => String::from_str(alloc, "proot: deadlock\n")?,
            Answer::Spent => String::from_str(alloc, "proot: turns spent\n")?,
            Answer::Usage { word, why } => word_line(alloc, *word, *why)?,
            Answer::TooLong { which } => format!(in alloc; "proot: too long: {which}\n")?,
            Answer::TreeBad { line, why } => tree_line(alloc, *line, *why)?,
            Answer::BadBind { index, why } => bind_line(alloc, *index, *why)?,
            Answer::NoStart { errno } => start_line(alloc, *errno)?,
            Answer::ReadFault { which } => format!(in alloc; "proot: read fault: {which}\n")?,
            Answer::WriteFault { which } => format!(in alloc; "proot: write fault: {which}\n")?,
            Answer::NoMemory => String::from_str(alloc, "proot: no memory\n")?,
        };
        Ok(Bytes::from(line.into_bytes()))
    }
}

/// The line of a word that breaks a rule.
fn word_line(alloc: Global, word: u32, why: Why) -> Result<String, NoMemory>
    ensures { IfOk result (λ text. string_bytes text ≡ line_of (Answer.Usage word why)) }
{
    let rule = WordRule { why };
    Ok(format!(in alloc; "proot: word {word}: {rule}\n")?)
}

/// The line of a bad line of the listing.
fn tree_line(alloc: Global, line: u32, why: TreeWhy) -> Result<String, NoMemory>
    ensures { IfOk result (λ text. string_bytes text ≡ line_of (Answer.TreeBad line why)) }
{
    let rule = TreeRule { why };
    Ok(format!(in alloc; "proot: tree line {line}: {rule}\n")?)
}

/// The line of a binding that is refused.
fn bind_line(alloc: Global, index: u32, why: BindWhy) -> Result<String, NoMemory>
    ensures { IfOk result (λ text. string_bytes text ≡ line_of (Answer.BadBind index why)) }
{
    let rule = BindRule { why };
    Ok(format!(in alloc; "proot: bind {index}: {rule}\n")?)
}

/// The line of a guest that wasn't started.
fn start_line(alloc: Global, errno: Errno) -> Result<String, NoMemory>
    ensures { IfOk result (λ text. string_bytes text ≡ line_of (Answer.NoStart errno)) }
{
    let number = errno.number();
    Ok(format!(in alloc; "proot: start: errno {number}\n")?)
}

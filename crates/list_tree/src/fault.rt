//! Why the program gives up.

use kr_text::TreeWhy;
use kr_text::below::NoMemory;
use std::fmt::{self, Display, Formatter, Write};

#[derive(Drop)]
pub(crate) enum Fault {
    /// The word isn't a number, or there are several.
    Word,
    Input,
    Output,
    Memory,
    /// A file has the ELF source's bytes, and there is none.
    Elf,
    /// A line of the listing is bad.
    Line { line: u32, why: TreeWhy },
    /// The tree takes no more names.
    Full,
}

impl From<NoMemory> for Fault {
    ghost use Rattle.std.specs.Prelude.{◌≡◌};
    ghost use Rattle.list_tree.specs.declared.fault.Fault.TheVariants.{Memory as MemoryRanOut};

    ghost from_gives = { λ error fault. fault ≡ MemoryRanOut };

    fn from(_error: NoMemory) -> Fault {
        Fault::Memory
    }
}

/// What is wrong with a line, in words.
fn meaning(why: TreeWhy) -> &'static str {
    match why {
        TreeWhy::Form => "its kind, its fields, its hex digits or its newline",
        TreeWhy::Number => "a mode or a number",
        TreeWhy::Name => "a path or a link's text",
        TreeWhy::NoParent => "there is no directory above this path",
        TreeWhy::Twice => "this is there already",
        TreeWhy::NoTarget => "the existing name is that of no file so far",
        TreeWhy::RootUser => "the user is 0",
        TreeWhy::NoUser => "no line names the user",
        TreeWhy::NoRoot => "no line is that of the root",
        TreeWhy::TwoElf => "a second file with the ELF source's bytes",
        TreeWhy::TooBig => "a limit of the tree is passed",
    }
}

impl Display for Fault {
    fn fmt<W: Write>(&self, f: &mut Formatter<W>) -> fmt::Result {
        match self {
            Fault::Word => write!(f, "usage: list_tree [NUMBER]"),
            Fault::Input => write!(f, "the listing can't be read"),
            Fault::Output => write!(f, "the listing can't be written"),
            Fault::Memory => write!(f, "memory ran out"),
            Fault::Elf => write!(f, "a line begins with `x `, and there is no ELF source"),
            Fault::Line { line, why } => {
                let meaning = meaning(*why);
                write!(f, "line {line}: {meaning}")
            }
            Fault::Full => write!(f, "the tree takes no more names"),
        }
    }
}

//! Why a listing can't be read.

use kr_tree::below::pr_base::NoMemory;

/// What is wrong with a line. In a line the first of `Form`, `Number`, `Name`, `RootUser`,
/// `NoParent`, `Twice`, `NoTarget`, `TwoElf` and `TooBig` counts.
#[derive(Clone, Copy)]
pub enum TreeWhy {
    /// The kind, the number of fields, a file's hex digits, or a last line without its newline.
    Form = 1,
    /// A mode or a number.
    Number = 2,
    /// A path or a link's text.
    Name = 3,
    /// There is no directory in which the path's last name could stand.
    NoParent = 4,
    /// The name is there already, or this is a second user or process directory.
    Twice = 5,
    /// The existing name is that of no file so far.
    NoTarget = 6,
    /// The user is 0.
    RootUser = 7,
    /// No line names the user.
    NoUser = 8,
    /// No line is that of the root.
    NoRoot = 9,
    /// This is a second file with the bytes of the ELF source.
    TwoElf = 10,
    /// A limit of the tree is passed.
    TooBig = 11,
}

/// Why a listing wasn't read.
#[derive(Clone, Copy)]
pub enum ListFault {
    /// The first bad line, counted from 1, and what is wrong with it. What is missing at the end is
    /// told of the line after the last.
    Bad { line: u32, why: TreeWhy },
    NoMemory,
}

/// Why a line wasn't read.
#[derive(Clone, Copy)]
pub(crate) enum LineFault {
    Bad(TreeWhy),
    NoMemory,
}

impl From<TreeWhy> for LineFault {
    ghost use Rattle.std.specs.Prelude.{◌≡◌};
    ghost use Rattle.kr_text.specs.declared.fault.LineFault.TheVariants.{Bad};

    ghost from_gives = { λ why fault. fault ≡ Bad why };

    fn from(why: TreeWhy) -> LineFault {
        LineFault::Bad(why)
    }
}

impl From<NoMemory> for LineFault {
    ghost use Rattle.std.specs.Prelude.{◌≡◌};
    ghost use Rattle.kr_text.specs.declared.fault.LineFault.TheVariants.{NoMemory as NoMemoryForLine};

    ghost from_gives = { λ error fault. fault ≡ NoMemoryForLine };

    fn from(_error: NoMemory) -> LineFault {
        LineFault::NoMemory
    }
}

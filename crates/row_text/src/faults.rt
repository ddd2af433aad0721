//! Why rows can't be read.

use guests::below::NoMemory;
use std::alloc::{AllocError, AllocFailed};
use std::fmt::{self, Display, Formatter, Write};

/// What is wrong with a line.
#[derive(Clone, Copy)]
pub enum Why {
    /// No block begins so.
    Block,
    /// There is no such key.
    Key,
    /// The key stands in its block already.
    Twice,
    /// Braces that aren't closed, without a number and a blank, or too many of them.
    Braces,
    /// A backslash, and nothing behind it that it may stand before.
    Escape,
    /// The bytes are no characters.
    Characters,
    /// Something else than hex digits.
    Hex,
    /// Something else than a number, or one that is too great.
    Number,
    /// No block has this name.
    Name,
    /// No value of this key.
    Value,
    /// The steps are no guest.
    Guest,
    /// There are too many words.
    Words,
}

/// Why rows weren't read.
#[derive(Clone, Copy)]
pub enum Fault {
    /// A line, counted from 1, and what is wrong with it.
    Bad { line: u32, why: Why },
    NoMemory,
}

impl From<NoMemory> for Fault {
    fn from(_error: NoMemory) -> Fault {
        Fault::NoMemory
    }
}

impl From<AllocError> for Fault {
    fn from(_error: AllocError) -> Fault {
        Fault::NoMemory
    }
}

impl<T: Drop> From<AllocFailed<T>> for Fault {
    fn from(_error: AllocFailed<T>) -> Fault {
        Fault::NoMemory
    }
}

impl Display for Why {
    fn fmt<W: Write>(&self, f: &mut Formatter<W>) -> fmt::Result {
        f.write_str(match self {
            Why::Block => "no block begins so",
            Why::Key => "there is no such key",
            Why::Twice => "the key stands in this block already",
            Why::Braces => "braces are to hold a number, a blank and a text",
            Why::Escape => "no escape",
            Why::Characters => "the bytes are no characters",
            Why::Hex => "hex digits are wanted",
            Why::Number => "a number is wanted, or a smaller one",
            Why::Name => "no block has this name",
            Why::Value => "no value of this key",
            Why::Guest => "the steps are no guest",
            Why::Words => "too many words",
        })
    }
}

impl Display for Fault {
    fn fmt<W: Write>(&self, f: &mut Formatter<W>) -> fmt::Result {
        match self {
            Fault::Bad { line, why } => write!(f, "line {line}: {why}"),
            Fault::NoMemory => f.write_str("no memory"),
        }
    }
}

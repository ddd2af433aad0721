//! Why a row can't be read.

use rv_loops::below::{MapFault, NoMemory, StoreFault};
use std::alloc::{AllocError, AllocFailed};
use std::fmt;

/// What is wrong with a row.
#[derive(Clone, Copy)]
pub enum Why {
    /// It begins with no kind of row.
    Kind,
    /// It doesn't have the parts of its kind.
    Parts,
    /// No instruction is written so.
    Instruction,
    /// An operand of an instruction is out of its range.
    Range,
    /// No register has this name.
    Register,
    /// It isn't a number, or is too large.
    Number,
    /// No setting has this name.
    Setting,
    /// No action on a memory is written so, or it can't be made.
    Action,
    /// The address isn't in the page of the instructions.
    Address,
    /// The instructions are more than a page.
    TooLong,
    /// Memory ran out.
    NoMemory,
}

impl fmt::Display for Why {
    fn fmt<W: fmt::Write>(&self, f: &mut fmt::Formatter<W>) -> fmt::Result {
        let text = match self {
            Why::Kind => "no such kind of row",
            Why::Parts => "a part is missing, or one too many",
            Why::Instruction => "no such instruction",
            Why::Range => "an operand out of range",
            Why::Register => "no such register",
            Why::Number => "no such number",
            Why::Setting => "no such setting",
            Why::Action => "no such action",
            Why::Address => "no address of the page",
            Why::TooLong => "more than a page",
            Why::NoMemory => "no memory",
        };
        write!(f, "{text}")
    }
}

/// What is wrong, and the part of the row that is.
#[derive(Clone, Copy)]
pub struct Fault<'a> {
    pub why: Why,
    pub part: &'a str,
}

impl<'a> Fault<'a> {
    pub fn new(why: Why, part: &'a str) -> Fault<'a> {
        Fault { why, part }
    }
}

impl<'a> fmt::Display for Fault<'a> {
    fn fmt<W: fmt::Write>(&self, f: &mut fmt::Formatter<W>) -> fmt::Result {
        let Fault { why, part } = self;
        write!(f, "{why}: `{part}`")
    }
}

impl<'a> From<AllocError> for Fault<'a> {
    fn from(_error: AllocError) -> Fault<'a> {
        Fault::new(Why::NoMemory, "")
    }
}

impl<'a> From<NoMemory> for Fault<'a> {
    fn from(_error: NoMemory) -> Fault<'a> {
        Fault::new(Why::NoMemory, "")
    }
}

// A memory of three pages is refused for want of memory alone.
impl<'a> From<MapFault> for Fault<'a> {
    fn from(_error: MapFault) -> Fault<'a> {
        Fault::new(Why::NoMemory, "")
    }
}

impl<'a> From<StoreFault> for Fault<'a> {
    fn from(_error: StoreFault) -> Fault<'a> {
        Fault::new(Why::NoMemory, "")
    }
}

impl<'a, T: Drop> From<AllocFailed<T>> for Fault<'a> {
    fn from(_error: AllocFailed<T>) -> Fault<'a> {
        Fault::new(Why::NoMemory, "")
    }
}

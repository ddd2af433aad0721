//! Why rows aren't run to their end.

use crate::faults::Fault;
use guests::below::NoMemory;
use std::alloc::{AllocError, AllocFailed};
use std::fmt::{self, Display, Formatter, Write};

#[derive(Clone, Copy)]
pub enum Failed {
    /// The rows can't be read, or are no characters.
    Input,
    /// What differs can't be told.
    Output,
    Rows(Fault),
}

impl From<Fault> for Failed {
    fn from(fault: Fault) -> Failed {
        Failed::Rows(fault)
    }
}

impl From<NoMemory> for Failed {
    fn from(_error: NoMemory) -> Failed {
        Failed::Rows(Fault::NoMemory)
    }
}

impl From<AllocError> for Failed {
    fn from(_error: AllocError) -> Failed {
        Failed::Rows(Fault::NoMemory)
    }
}

impl<T: Drop> From<AllocFailed<T>> for Failed {
    fn from(_error: AllocFailed<T>) -> Failed {
        Failed::Rows(Fault::NoMemory)
    }
}

impl Display for Failed {
    fn fmt<W: Write>(&self, f: &mut Formatter<W>) -> fmt::Result {
        match self {
            Failed::Input => f.write_str("the rows can't be read"),
            Failed::Output => f.write_str("what differs can't be told"),
            Failed::Rows(fault) => write!(f, "{fault}"),
        }
    }
}

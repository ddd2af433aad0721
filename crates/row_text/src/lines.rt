//! A line, or a part of one, and its place in the rows.

use crate::faults::{Fault, Why};

/// A text of a line, and the line's number, counted from 1.
#[derive(Clone, Copy)]
pub(crate) struct Line<'a> {
    pub(crate) number: u32,
    pub(crate) text: &'a str,
}

impl<'a> Line<'a> {
    /// What is wrong with this line.
    pub(crate) fn bad(&self, why: Why) -> Fault {
        Fault::Bad {
            line: self.number,
            why,
        }
    }

    /// Another text of the same line.
    pub(crate) fn with<'b>(&self, text: &'b str) -> Line<'b> {
        Line {
            number: self.number,
            text,
        }
    }

    /// What stands before the first blank, and what stands behind it.
    pub(crate) fn split(&self) -> (&'a str, Line<'a>) {
        match self.text.split_once(' ') {
            Some((head, rest)) => (
                head,
                Line {
                    number: self.number,
                    text: rest,
                },
            ),
            None => (
                self.text,
                Line {
                    number: self.number,
                    text: "",
                },
            ),
        }
    }
}

//! Which places were used last.

use crate::rights::Use;

/// How many places of pages that were read or written are remembered.
const DATA: u64 = 8;

/// The places of the last pages used, one for fetches and some for data, by the low bits of a page's number.
/// They are hints: whoever takes one compares the number of the page at it.
#[derive(Clone, Copy)]
pub struct Recent {
    fetched: usize,
    data: [usize; DATA as usize],
}

impl Recent {
    /// No place yet.
    pub fn new() -> Recent {
        Recent {
            fetched: 0,
            data: [0; DATA as usize],
        }
    }

    /// Where the page at a number was when it was used last, or another.
    #[inline(always)]
    pub fn place(&self, number: u64, what: Use) -> usize {
        match what {
            Use::Execute => self.fetched,
            Use::Read | Use::Write => self.data[(number % DATA) as usize],
        }
    }

    /// Notes where the page at a number is.
    #[inline(always)]
    pub fn note(&mut self, number: u64, what: Use, place: usize) {
        match what {
            Use::Execute => self.fetched = place,
            Use::Read | Use::Write => self.data[(number % DATA) as usize] = place,
        }
    }
}

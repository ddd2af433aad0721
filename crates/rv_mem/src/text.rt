//! Texts that end with a zero byte.
ghost use Rattle.std.specs.Prelude.{◌≡◌, ◌+◌, ◌-◌, ◌^◌, ◌≤◌, true, length, IfOk};

use crate::rights::Use;
use crate::table::Table;
use rv_table::below::pr_base::PAGE_SIZE;
use std::alloc::AllocError;

/// Where the search for a text's end stopped.
#[derive(Clone, Copy)]
pub enum TextEnd {
    /// After the first zero.
    Zero,
    /// Before the first byte that isn't readable.
    Unreadable,
    /// After as many bytes as are allowed.
    Limit,
}

/// What the search for a text's end read.
#[derive(Clone, Copy)]
pub struct Scan {
    /// How many bytes.
    pub reach: u64,
    /// Whether one of them is marked.
    pub marked: bool,
    pub end: TextEnd,
}

impl<const MARKED: u8> Table<MARKED> {
    ghost use Rattle.rv_mem.specs.declared.rights.Use.TheVariants.{Read};
    ghost use Rattle.rv_mem.specs.Pages.{allows_all, any_marked, bytes_from, HasPagesAt, IsPlaced};
    ghost use Rattle.rv_mem.specs.Memory.{text_of, text_reach};
    ghost use Rattle.rv_mem.specs.Scan.{text_from};

    /// Looks for the end of the text at an address, among at most `max` bytes.
    pub fn scan(&self, at: u64, max: u64) -> Scan
        requires placed { IsPlaced self.now }
        ensures reach { result.reach ≡ text_reach self.now at max }
        ensures within { result.reach ≤ max }
        ensures some { result.end ≡ TextEnd.Zero → 1 ≤ result.reach }
        ensures allowed { allows_all self.now at result.reach Read ≡ true }
        ensures marked { result.marked ≡ any_marked self.now at result.reach }
        ensures text { text_of self.now at max ≡ text_from result.end (bytes_from self.now at (result.reach - 1)) }
    {
        let mut reach = 0;
        let mut marked = false;
        while reach < max {
            let next = at + reach;
            if !self.allows(next / PAGE_SIZE, Use::Read) {
                let end = TextEnd::Unreadable;
                return Scan { reach, marked, end };
            }
            let count = (PAGE_SIZE - next % PAGE_SIZE).min(max - reach);
            if let Some(before) = self.zero_in(next, count as usize) {
                marked |= self.any_marked(next, before + 1);
                reach += before as u64 + 1;
                let end = TextEnd::Zero;
                return Scan { reach, marked, end };
            }
            marked |= self.any_marked(next, count as usize);
            reach += count;
        }
        let end = TextEnd::Limit;
        Scan { reach, marked, end }
    }

    /// The `count` bytes from an address on, which are all there.
    pub fn bytes_at(&self, at: u64, count: usize) -> Result<Vec<u8>, AllocError>
        requires fits { at + count ≤ 2 ^ 64 }
        requires there { HasPagesAt self.now at count }
        ensures { IfOk result (λ v. v.items ≡ bytes_from self.now at count) }
    {
        let mut bytes = vec![in self.allocator(); 0; count]?;
        let _marked = self.read_all(at, &mut bytes);
        Ok(bytes)
    }
}

//! What was decoded of a page.
ghost use Rattle.std.specs.Prelude.{◌≡◌, ◌*◌, ◌+◌, ◌-◌, ◌/◌, ◌<◌, ◌≤◌, ◌⊎◌, ℕ, List, Some, length, slice_index_or, IfSome};
ghost use Rattle.std.proofs.Math.Seq.{sets};
ghost use Rattle.rv_table.specs.declared.small.Small.{Small};
ghost use Rattle.rv_table.specs.declared.small.Small.TheVariants.{Nothing};
ghost use Rattle.rv_table.specs.Small.{instr_of};
ghost use Rattle.rv_table.specs.Rows.{decoded};
ghost use Rattle.rv_mem.specs.Code.{word_at, AreDecoded};

use crate::frame::PAGE_LENGTH;
use rv_table::Small;
use std::alloc::Global;

/// How many bytes an instruction has.
pub const INSTRUCTION: usize = 4;

/// How many instructions a page has.
const INSTRUCTIONS: usize = PAGE_LENGTH / INSTRUCTION;

/// What was decoded of a page: nothing, or the instructions of some of its words, by the places of the words.
#[derive(Drop)]
pub struct Code {
    entries: Vec<Small>,
}

/// What a fetch finds.
#[derive(Clone, Copy)]
pub struct Fetched {
    /// The instruction of the word, if it is one.
    pub found: Small,
    /// Whether one of its bytes is marked.
    pub marked: bool,
}

impl Code {
    /// Nothing.
    pub fn none(alloc: Global) -> Code
        ensures { (bytes : List ℕ) → AreDecoded result.entries.items bytes }
    {
        let entries = Vec::new(alloc);
        Code { entries }
    }

    /// The allocator.
    pub fn allocator(&self) -> Global {
        *self.entries.allocator()
    }

    /// Whether there is room for what is decoded.
    #[inline(always)]
    pub fn has_room(&self) -> bool {
        !self.entries.is_empty()
    }

    /// What was decoded of the word at a place, if it is remembered.
    #[inline(always)]
    pub fn recalled(&self, index: usize) -> Small
        ensures { (bytes : List ℕ) → AreDecoded self.now.entries.items bytes → IfSome (instr_of result) (λ i. decoded (word_at bytes (4 * index)) ≡ Some i) }
    {
        if index < self.entries.len() {
            self.entries[index]
        } else {
            Small::Nothing
        }
    }

    /// Remembers what was decoded of the word at a place, if there is room for it.
    pub fn remember(&mut self, index: usize, found: Small)
        ensures { (bytes : List ℕ) → instr_of found ≡ decoded (word_at bytes (4 * index)) → AreDecoded self.old.entries.items bytes → AreDecoded self.new.entries.items bytes }
    {
        if index < self.entries.len() {
            self.entries[index] = found;
        }
    }

    /// Makes room for what is decoded, if there is memory for it.
    pub fn make_room(&mut self, alloc: Global)
        ensures { (bytes : List ℕ) → AreDecoded self.old.entries.items bytes → AreDecoded self.new.entries.items bytes }
    {
        if let Some(entries) = unknown(alloc) {
            self.entries = entries;
        }
    }

    /// Forgets the instructions of which one of the bytes from an offset up to, but without, another is a part.
    #[inline(always)]
    pub fn forget(&mut self, from: usize, to: usize)
        requires { from ≤ to }
        ensures { (bytes written : List ℕ) → length written ≡ to - from → AreDecoded self.old.entries.items bytes → AreDecoded self.new.entries.items (sets bytes from written) }
    {
        if !self.entries.is_empty() {
            forget_words(
                &mut self.entries,
                from / INSTRUCTION,
                to.div_ceil(INSTRUCTION),
            );
        }
    }
}

/// Forgets the instructions at the places from one up to, but without, another.
fn forget_words(entries: &mut Vec<Small>, first: usize, end: usize)
    ensures forgotten { (k : ℕ) (d : Small) → first ≤ k → k < end → k < length entries.new.items → slice_index_or entries.new.items k d ≡ Nothing }
    ensures kept { (k : ℕ) (d : Small) → (k < first) ⊎ (end ≤ k) → slice_index_or entries.new.items k d ≡ slice_index_or entries.old.items k d }
    ensures len { length entries.new.items ≡ length entries.old.items }
{
    for index in first..end.min(entries.len()) {
        entries[index] = Small::Nothing;
    }
}

/// Room for what is decoded of a page.
fn unknown(alloc: Global) -> Option<Vec<Small>>
    ensures { IfSome result (λ entries. (bytes : List ℕ) → AreDecoded entries.items bytes) }
{
    match Vec::from_array(alloc, [Small::Nothing; INSTRUCTIONS]) {
        Ok(entries) => Some(entries),
        Err(_) => None,
    }
}

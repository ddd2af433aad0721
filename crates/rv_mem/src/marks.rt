//! The marks of a page's bytes.
ghost use Rattle.rv_table.specs.pr_base.Page.{page_size};
ghost use Rattle.std.specs.Prelude.{◌≡◌, ◌≢◌, ◌+◌, ◌-◌, ◌*◌, ◌/◌, ◌%◌, ◌<◌, ◌≤◌, ℕ, take, drop, replicate, length, nat_eq, slice_index, false, true};
ghost use Rattle.std.specs.Int.{bit_at};
ghost use Rattle.std.specs.List.{list_any};
ghost use Rattle.std.proofs.Math.Seq.{sets};
ghost use Rattle.rv_mem.specs.Marks.{is_set, marks_in, marks_of, no_marks};

use crate::frame::PAGE_LENGTH;

/// How many bytes a word has the marks of.
const WORD: usize = 64;

/// How many words a page's marks take.
const WORDS: usize = PAGE_LENGTH / WORD;

/// Which bytes of a page are marked, a bit for each. Where `some` is false none is, whatever is stored.
#[derive(Clone, Copy)]
pub struct Marks {
    some: bool,
    words: [u64; WORDS],
}

impl Marks {
    /// No marks.
    pub fn none() -> Marks
        ensures { marks_of result ≡ no_marks }
    {
        Marks {
            some: false,
            words: [0; WORDS],
        }
    }

    /// Whether a byte may be marked.
    pub fn has_some(&self) -> bool
        ensures { result ≡ false → marks_of self.now ≡ no_marks }
    {
        self.some
    }

    /// Takes all marks away.
    pub fn clear_all(&mut self)
        ensures { marks_of self.new ≡ no_marks }
    {
        self.some = false;
    }

    /// Takes the marks of the bytes from an index up to, but without, another away.
    #[inline(always)]
    pub fn clear(&mut self, from: usize, to: usize)
        requires ordered { from ≤ to }
        requires within { to ≤ page_size }
        ensures { marks_of self.new ≡ sets (marks_of self.old) from (replicate (to - from) false) }
    {
        if self.some {
            put(&mut self.words, from, to, false);
        }
    }

    /// Marks the bytes from an index up to, but without, another.
    pub fn set(&mut self, from: usize, to: usize)
        requires ordered { from ≤ to }
        requires within { to ≤ page_size }
        ensures { marks_of self.new ≡ sets (marks_of self.old) from (replicate (to - from) true) }
    {
        self.make_some();
        put(&mut self.words, from, to, true);
    }

    /// Lets the words tell the marks.
    fn make_some(&mut self)
        ensures some { self.new.some ≡ true }
        ensures words { marks_in self.new.words ≡ marks_of self.old }
    {
        if !self.some {
            self.words = [0; WORDS];
            self.some = true;
        }
    }

    /// Whether one of the `count` bytes from an index on is marked.
    #[inline(always)]
    pub fn any(&self, from: usize, count: usize) -> bool
        requires { from + count ≤ page_size }
        ensures { result ≡ list_any (λ m. m) (take count (drop from (marks_of self.now))) }
    {
        self.some && any_set(&self.words, from, from + count)
    }
}

/// A word in which the bits from `lowest` up to, but without, `end` are set.
fn mask(lowest: u32, end: u32) -> u64
    requires lowest { lowest < 64 }
    requires end { (0 < end) × (end ≤ 64) }
    ensures inside { (k : ℕ) → lowest ≤ k → k < end → bit_at result k ≡ 1 }
    ensures below { (k : ℕ) → k < lowest → bit_at result k ≡ 0 }
    ensures above { (k : ℕ) → end ≤ k → bit_at result k ≡ 0 }
{
    (u64::MAX << lowest) & (u64::MAX >> (64 - end))
}

/// A word with the bits of a mask set, or cleared.
fn masked(word: u64, mask: u64, value: bool) -> u64
    ensures inside { (k : ℕ) → k < 64 → bit_at mask k ≡ 1 → nat_eq (bit_at result k) 1 ≡ value }
    ensures outside { (k : ℕ) → k < 64 → bit_at mask k ≡ 0 → bit_at result k ≡ bit_at word k }
{
    if value { word | mask } else { word & !mask }
}

/// The word whose bits begin at the index `start`, with those of the indices from `from` up to, but without, `to` set,
/// or cleared.
fn word_with(word: u64, start: usize, from: usize, to: usize, value: bool) -> u64
    requires begins { start < to }
    requires ends { from < start + 64 }
    requires small { to ≤ page_size }
    ensures inside { (k : ℕ) → k < 64 → from ≤ start + k → start + k < to → nat_eq (bit_at result k) 1 ≡ value }
    ensures below { (k : ℕ) → k < 64 → start + k < from → bit_at result k ≡ bit_at word k }
    ensures above { (k : ℕ) → k < 64 → to ≤ start + k → bit_at result k ≡ bit_at word k }
{
    let lowest = from.max(start) - start;
    let end = to.min(start + WORD) - start;
    masked(word, mask(lowest as u32, end as u32), value)
}

/// Sets the marks from an index up to, but without, another, or clears them.
fn put(words: &mut [u64], from: usize, to: usize, value: bool)
    requires ordered { from ≤ to }
    requires within { to ≤ 64 * length words.old }
    requires small { to ≤ page_size }
    ensures inside { (i : ℕ) → from ≤ i → i < to → is_set words.new i ≡ value }
    ensures below { (i : ℕ) → i < from → is_set words.new i ≡ is_set words.old i }
    ensures above { (i : ℕ) → to ≤ i → is_set words.new i ≡ is_set words.old i }
    ensures len { length words.new ≡ length words.old }
{
    for index in from / WORD..to.div_ceil(WORD) {
        let word = words[index];
        words[index] = word_with(word, index * WORD, from, to, value);
    }
}

/// Whether the byte at an index is marked.
fn is_set(words: &[u64], index: usize) -> bool
    requires { index / 64 < length words.now }
    ensures { result ≡ is_set words.now index }
{
    (words[index / WORD] >> (index % WORD) as u32) & 1 == 1
}

/// Whether one of the bytes from an index up to, but without, another is marked.
fn any_set(words: &[u64], from: usize, to: usize) -> bool
    requires ordered { from ≤ to }
    requires within { to ≤ 64 * length words.now }
    ensures none { result ≡ false → (i : ℕ) → from ≤ i → i < to → is_set words.now i ≡ false }
    ensures some { result ≡ true → (i : ℕ) × (from ≤ i) × (i < to) × (is_set words.now i ≡ true) }
{
    for index in from..to {
        if is_set(words, index) {
            return true;
        }
    }
    false
}

//! What the loads make of the bytes that they read.
ghost use Rattle.std.specs.Prelude.{◌≡◌, ◌%◌, IfSome, true, false};
ghost use Rattle.rv_mem.specs.Pages.{allows_all, bytes_from};
ghost use Rattle.rv_mem.specs.Memory.{after_read};
ghost use Rattle.rv_mem.specs.pr_base.Fields.{little_endian};
ghost use Rattle.rv_mem.specs.rv_table.Small.{instr_of};
ghost use Rattle.rv_mem.specs.rv_table.Rows.{decoded};
ghost use Rattle.rv_cpu.specs.Loads.{size, extended};
ghost use Rattle.rv_cpu.specs.Step.{width};
ghost use Rattle.rv_cpu.specs.Words as word;

use crate::arithmetic::extend;
use rv_mem::below::rv_table::Small;
use rv_mem::{Space, Use};

/// How many bytes a load reads, and how it extends them.
#[derive(Clone, Copy)]
pub enum Load {
    Byte,
    Half,
    Word,
    Double,
    ByteUnsigned,
    HalfUnsigned,
    WordUnsigned,
}

/// A byte, its sign bit repeated above.
#[inline(always)]
fn extend_byte(n: u8) -> u64
    ensures { result ≡ word.sign_extended_byte n }
{
    i64::from(n.cast_signed()).cast_unsigned()
}

/// A half word, its sign bit repeated above.
#[inline(always)]
fn extend_half(n: u16) -> u64
    ensures { result ≡ word.sign_extended_half n }
{
    i64::from(n.cast_signed()).cast_unsigned()
}

/// Reads bytes for a use, all or none of them.
#[inline(always)]
pub fn read_array<const N: usize, const M: u8>(
    mem: &mut Space<M>,
    at: u64,
    what: Use,
) -> Option<[u8; N]>
    ensures some { IfSome result (λ bytes. (allows_all mem.old.pages at N what ≡ true) × (bytes ≡ bytes_from mem.old.pages at N) × (mem.new ≡ after_read mem.old at N)) }
    ensures none { result ≡ None → (allows_all mem.old.pages at N what ≡ false) × (mem.new ≡ mem.old) }
{
    let mut bytes = [0; N];
    match mem.read(at, &mut bytes, what) {
        Ok(()) => Some(bytes),
        Err(_) => None,
    }
}

#[inline(always)]
fn read_byte<const M: u8>(mem: &mut Space<M>, at: u64) -> Option<u8>
    ensures some { IfSome result (λ n. (allows_all mem.old.pages at 1 Use.Read ≡ true) × (n ≡ little_endian (bytes_from mem.old.pages at 1)) × (mem.new ≡ after_read mem.old at 1)) }
    ensures none { result ≡ None → (allows_all mem.old.pages at 1 Use.Read ≡ false) × (mem.new ≡ mem.old) }
{
    match read_array::<1, M>(mem, at, Use::Read) {
        Some(bytes) => Some(u8::from_le_bytes(bytes)),
        None => None,
    }
}

#[inline(always)]
fn read_half<const M: u8>(mem: &mut Space<M>, at: u64) -> Option<u16>
    ensures some { IfSome result (λ n. (allows_all mem.old.pages at 2 Use.Read ≡ true) × (n ≡ little_endian (bytes_from mem.old.pages at 2)) × (mem.new ≡ after_read mem.old at 2)) }
    ensures none { result ≡ None → (allows_all mem.old.pages at 2 Use.Read ≡ false) × (mem.new ≡ mem.old) }
{
    match read_array::<2, M>(mem, at, Use::Read) {
        Some(bytes) => Some(u16::from_le_bytes(bytes)),
        None => None,
    }
}

/// Reads a word for a use: as data, or to execute it.
#[inline(always)]
pub fn read_word<const M: u8>(mem: &mut Space<M>, at: u64, what: Use) -> Option<u32>
    ensures some { IfSome result (λ n. (allows_all mem.old.pages at 4 what ≡ true) × (n ≡ little_endian (bytes_from mem.old.pages at 4)) × (mem.new ≡ after_read mem.old at 4)) }
    ensures none { result ≡ None → (allows_all mem.old.pages at 4 what ≡ false) × (mem.new ≡ mem.old) }
{
    match read_array::<4, M>(mem, at, what) {
        Some(bytes) => Some(u32::from_le_bytes(bytes)),
        None => None,
    }
}

/// Fetches the word at an address that is divisible by 4: its instruction, if it is one. `None` where a byte isn't executable.
#[inline(always)]
pub fn fetch<const M: u8>(mem: &mut Space<M>, at: u64) -> Option<Small>
    requires { at % 4 ≡ 0 }
    ensures some { IfSome result (λ found. (allows_all mem.old.pages at 4 Use.Execute ≡ true) × (instr_of found ≡ decoded (little_endian (bytes_from mem.old.pages at 4))) × (mem.new ≡ after_read mem.old at 4)) }
    ensures none { result ≡ None → (allows_all mem.old.pages at 4 Use.Execute ≡ false) × (mem.new ≡ mem.old) }
{
    match mem.fetch(at) {
        Ok(found) => Some(found),
        Err(_) => None,
    }
}

#[inline(always)]
fn read_double<const M: u8>(mem: &mut Space<M>, at: u64) -> Option<u64>
    ensures some { IfSome result (λ n. (allows_all mem.old.pages at 8 Use.Read ≡ true) × (n ≡ little_endian (bytes_from mem.old.pages at 8)) × (mem.new ≡ after_read mem.old at 8)) }
    ensures none { result ≡ None → (allows_all mem.old.pages at 8 Use.Read ≡ false) × (mem.new ≡ mem.old) }
{
    match read_array::<8, M>(mem, at, Use::Read) {
        Some(bytes) => Some(u64::from_le_bytes(bytes)),
        None => None,
    }
}

/// What a load gives its register, `None` where a byte isn't readable.
#[inline(always)]
pub fn loaded<const M: u8>(mem: &mut Space<M>, at: u64, load: Load) -> Option<u64>
    ensures some { IfSome result (λ n. (allows_all mem.old.pages at (size load) Use.Read ≡ true) × (n ≡ extended load (little_endian (bytes_from mem.old.pages at (size load)))) × (mem.new ≡ after_read mem.old at (size load))) }
    ensures none { result ≡ None → (allows_all mem.old.pages at (size load) Use.Read ≡ false) × (mem.new ≡ mem.old) }
{
    match load {
        Load::Byte => Some(extend_byte(read_byte(mem, at)?)),
        Load::Half => Some(extend_half(read_half(mem, at)?)),
        Load::Word => Some(extend(read_word(mem, at, Use::Read)?)),
        Load::Double => read_double(mem, at),
        Load::ByteUnsigned => Some(u64::from(read_byte(mem, at)?)),
        Load::HalfUnsigned => Some(u64::from(read_half(mem, at)?)),
        Load::WordUnsigned => Some(u64::from(read_word(mem, at, Use::Read)?)),
    }
}

/// The number that a doubleword holds, or a word, which isn't wide. `None` where a byte isn't readable.
pub fn number_at<const M: u8>(mem: &mut Space<M>, wide: bool, at: u64) -> Option<u64>
    ensures some { let n = width wide in IfSome result (λ number. (allows_all mem.old.pages at n Use.Read ≡ true) × (number ≡ little_endian (bytes_from mem.old.pages at n)) × (mem.new ≡ after_read mem.old at n)) }
    ensures none { result ≡ None → (allows_all mem.old.pages at (width wide) Use.Read ≡ false) × (mem.new ≡ mem.old) }
{
    if wide {
        read_double(mem, at)
    } else {
        Some(u64::from(read_word(mem, at, Use::Read)?))
    }
}

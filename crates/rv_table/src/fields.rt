//! The fields of a word, where the RISC-V unprivileged specification draws them ("Base Instruction
//! Formats" and "Immediate Encoding Variants").
ghost use Rattle.std.specs.Prelude.{◌≡◌, ◌<◌, ◌≤◌, ◌^◌};
ghost use Rattle.rv_table.specs.Rows as manual;

use pr_base::bits;

/// A number of `WIDTH` bits read in two's complement.
#[inline(always)]
fn signed<const WIDTH: u32>(n: u32) -> i64
    requires some { 1 ≤ WIDTH }
    requires within { WIDTH ≤ 32 }
    requires fits { n < 2 ^ WIDTH }
    ensures { result ≡ manual.signed WIDTH n }
{
    let sign_bit = 1u32 << (WIDTH - 1);
    if n < sign_bit {
        i64::from(n)
    } else {
        i64::from(n) - 2 * i64::from(sign_bit)
    }
}

#[inline(always)]
pub fn rd(word: u32) -> u8
    ensures { result ≡ manual.rd_of word }
{
    bits::<11, 7>(word) as u8
}

#[inline(always)]
pub fn rs1(word: u32) -> u8
    ensures { result ≡ manual.rs1_of word }
{
    bits::<19, 15>(word) as u8
}

#[inline(always)]
pub fn rs2(word: u32) -> u8
    ensures { result ≡ manual.rs2_of word }
{
    bits::<24, 20>(word) as u8
}

#[inline(always)]
pub fn i_immediate(word: u32) -> i64
    ensures { result ≡ manual.i_immediate word }
{
    signed::<12>(bits::<31, 20>(word))
}

#[inline(always)]
pub fn s_immediate(word: u32) -> i64
    ensures { result ≡ manual.s_immediate word }
{
    signed::<12>((bits::<31, 25>(word) << 5) + bits::<11, 7>(word))
}

#[inline(always)]
pub fn b_immediate(word: u32) -> i64
    ensures { result ≡ manual.b_immediate word }
{
    signed::<13>(
        (bits::<31, 31>(word) << 12)
            + (bits::<7, 7>(word) << 11)
            + (bits::<30, 25>(word) << 5)
            + (bits::<11, 8>(word) << 1),
    )
}

#[inline(always)]
pub fn u_immediate(word: u32) -> i64
    ensures { result ≡ manual.u_immediate word }
{
    signed::<32>(bits::<31, 12>(word) << 12)
}

#[inline(always)]
pub fn j_immediate(word: u32) -> i64
    ensures { result ≡ manual.j_immediate word }
{
    signed::<21>(
        (bits::<31, 31>(word) << 20)
            + (bits::<19, 12>(word) << 12)
            + (bits::<20, 20>(word) << 11)
            + (bits::<30, 21>(word) << 1),
    )
}

/// The amount of a shift of 64 bits.
#[inline(always)]
pub fn shift_amount(word: u32) -> i64
    ensures { result ≡ manual.shift_amount word }
{
    i64::from(bits::<25, 20>(word))
}

/// The amount of a shift of 32 bits.
#[inline(always)]
pub fn word_shift_amount(word: u32) -> i64
    ensures { result ≡ manual.word_shift_amount word }
{
    i64::from(bits::<24, 20>(word))
}

/// Whether other accesses are ordered before and behind an atomic one: the bits `aq` and `rl`.
pub fn order(word: u32) -> u8
    ensures { result ≡ manual.order_of word }
{
    bits::<26, 25>(word) as u8
}

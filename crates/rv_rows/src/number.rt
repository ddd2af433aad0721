//! Numbers and registers as they are written.

use crate::fault::{Fault, Why};

/// The names that the calling convention gives the registers, in the order of their numbers.
pub const NAMES: [&str; 32] = [
    "zero", "ra", "sp", "gp", "tp", "t0", "t1", "t2", "s0", "s1", "a0", "a1", "a2", "a3", "a4",
    "a5", "a6", "a7", "s2", "s3", "s4", "s5", "s6", "s7", "s8", "s9", "s10", "s11", "t3", "t4",
    "t5", "t6",
];

/// The number of a register, by its name or behind an `x`. There is no test that it is below 32.
pub fn register(word: &str) -> Result<u8, Fault<'_>> {
    let fault = Fault::new(Why::Register, word);
    if let Some(digits) = word.strip_prefix('x') {
        return digits.parse::<u8>().ok().ok_or(fault);
    }
    let place = NAMES.iter().position(|name| *name == word).ok_or(fault)?;
    u8::try_from(place).ok().ok_or(fault)
}

/// A number of 64 bits, in hexadecimal behind `0x`, or in decimal, which may have a sign.
pub fn value(word: &str) -> Result<u64, Fault<'_>> {
    let fault = Fault::new(Why::Number, word);
    match word.strip_prefix("0x") {
        Some(digits) => u64::from_str_radix(digits, 16).ok().ok_or(fault),
        None => Ok(word.parse::<i64>().ok().ok_or(fault)?.cast_unsigned()),
    }
}

/// A number of 32 bits.
pub fn small(word: &str) -> Result<u32, Fault<'_>> {
    let wide = value(word)?;
    u32::try_from(wide)
        .ok()
        .ok_or(Fault::new(Why::Number, word))
}

//! Programs: instructions with a `;` between each two.

use crate::fault::{Fault, Why};
use crate::instruction::instruction;
use crate::number::small;
use rv_loops::below::{encode, valid};
use std::alloc::Global;

/// The word of an instruction, or the one that stands behind `.word`.
fn word(alloc: Global, text: &str) -> Result<u32, Fault<'_>> {
    if let Some(number) = text.strip_prefix(".word ") {
        return small(number.trim());
    }
    let found = instruction(alloc, text)?;
    if !valid(found) {
        return Err(Fault::new(Why::Range, text));
    }
    Ok(encode(found))
}

/// The bytes of a program.
pub fn code(alloc: Global, text: &str) -> Result<Vec<u8>, Fault<'_>> {
    let mut code = Vec::new(alloc);
    for one in text.split(';') {
        let word = word(alloc, one.trim())?;
        code.extend_from_slice(&word.to_le_bytes())?;
    }
    Ok(code)
}

//! What blocks hold.

use crate::faults::{Fault, Why};
use crate::lines::Line;
use crate::parts::{Block, Kind};
use crate::text::{bytes, from_hex, text};
use guests::below::{Bytes, NoMemory};
use guests::{GuestFault, HELLO, coded};
use std::alloc::Global;

/// The listing of that name.
pub(crate) fn listing_named<'b, 'a>(
    blocks: &'b [Block<'a>],
    name: Line<'_>,
) -> Result<&'b Block<'a>, Fault> {
    for block in blocks {
        if matches!(block.kind, Kind::Listing) && block.name.text == name.text {
            return Ok(block);
        }
    }
    Err(name.bad(Why::Name))
}

/// The guest, code or file of that name.
fn program_named<'b, 'a>(blocks: &'b [Block<'a>], name: Line<'_>) -> Result<&'b Block<'a>, Fault> {
    for block in blocks {
        if block.kind.is_program() && block.name.text == name.text {
            return Ok(block);
        }
    }
    Err(name.bad(Why::Name))
}

/// A line of a listing. Where there are bytes of an ELF file, a line `x` stands for one with them.
pub(crate) fn entry(alloc: Global, line: &str, elf: Option<&[u8]>) -> Result<String, NoMemory> {
    if let (Some(program), Some(elf)) = (line.strip_prefix("x "), elf) {
        let digits = hex::encode(alloc, elf)?;
        return Ok(format!(in alloc; "f {program} {digits}\n")?);
    }
    match line.strip_suffix(" HELLO") {
        Some(file) => {
            let digits = hex::encode(alloc, HELLO.as_slice())?;
            Ok(format!(in alloc; "{file} {digits}\n")?)
        }
        None => Ok(format!(in alloc; "{line}\n")?),
    }
}

/// The listing of a block.
pub(crate) fn listing(alloc: Global, block: &Block<'_>) -> Result<Bytes, NoMemory> {
    let mut listing = Bytes::new(alloc);
    for line in &block.lines {
        listing.append(entry(alloc, line.text, None)?.as_bytes())?;
    }
    Ok(listing)
}

/// The listing that a run leaves that changes nothing in the one of a block, where the ELF file has these bytes.
pub(crate) fn left(alloc: Global, block: &Block<'_>, elf: &[u8]) -> Result<Bytes, NoMemory> {
    let mut listing = Bytes::new(alloc);
    for line in &block.lines {
        listing.append(entry(alloc, line.text, Some(elf))?.as_bytes())?;
    }
    Ok(listing)
}

/// The steps of a block, parted by `;`.
fn steps(alloc: Global, block: &Block<'_>) -> Result<String, Fault> {
    let mut steps = String::new(alloc);
    for line in &block.lines {
        if !steps.is_empty() {
            steps.push(';')?;
        }
        steps.push_str(text(alloc, *line)?.as_str())?;
    }
    Ok(steps)
}

/// The guest of some steps.
pub(crate) fn guest(alloc: Global, line: Line<'_>, steps: &str) -> Result<Bytes, Fault> {
    match guests::guest(alloc, steps) {
        Ok(elf) => Ok(elf),
        Err(GuestFault::NoGuest) => Err(line.bad(Why::Guest)),
        Err(GuestFault::NoMemory) => Err(Fault::NoMemory),
    }
}

/// The file of a block of code.
fn code(alloc: Global, block: &Block<'_>) -> Result<Bytes, Fault> {
    let mut words = Vec::new(alloc);
    let mut behind = Bytes::new(alloc);
    for line in &block.lines {
        let (word, rest) = line.split();
        if word == "text" {
            behind.append(bytes(alloc, rest)?.as_slice())?;
            continue;
        }
        match u32::from_str_radix(word, 16) {
            Ok(word) => words.push(word)?,
            Err(_error) => return Err(line.bad(Why::Hex)),
        }
    }
    Ok(coded(alloc, words.as_slice(), behind.as_slice())?)
}

/// The bytes of a block of hex digits.
fn digits(alloc: Global, block: &Block<'_>) -> Result<Bytes, Fault> {
    let mut file = Bytes::new(alloc);
    for line in &block.lines {
        file.append(from_hex(alloc, *line)?.as_slice())?;
    }
    Ok(file)
}

/// The ELF file of that name.
pub(crate) fn program(alloc: Global, blocks: &[Block<'_>], name: Line<'_>) -> Result<Bytes, Fault> {
    if name.text == "hello" {
        return Ok(Bytes::copy(alloc, &HELLO)?);
    }
    let block = program_named(blocks, name)?;
    match block.kind {
        Kind::Guest => guest(alloc, block.name, steps(alloc, block)?.as_str()),
        Kind::Code => code(alloc, block),
        Kind::File => digits(alloc, block),
        Kind::Listing | Kind::Default | Kind::Row => Err(name.bad(Why::Name)),
    }
}

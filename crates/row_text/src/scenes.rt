//! What is handed to the runs of a row.

use crate::defaults::{Row, Value};
use crate::faults::{Fault, Why};
use crate::files::{entry, guest, listing, listing_named, program};
use crate::keys::Key;
use crate::lines::Line;
use crate::text::{bytes, from_hex, number, text, words};
use guests::HELLO;
use guests::below::Bytes;
use std::alloc::Global;

/// To how many bytes the ELF file is cut.
#[derive(Clone, Copy)]
pub(crate) struct Cut {
    pub(crate) from: u32,
    pub(crate) to: u32,
}

/// The words of a row's runs, and what its sources hold.
#[derive(Drop)]
pub(crate) struct Scene {
    /// Words that are put before the others; the row is run with each of them.
    pub(crate) options: Vec<Vec<String>>,
    pub(crate) words: Vec<String>,
    pub(crate) tree: Bytes,
    pub(crate) elf: Bytes,
    /// Each number of bytes to which the ELF file is cut, if it is.
    pub(crate) cut: Option<Cut>,
    pub(crate) input: Bytes,
}

/// The bytes of the listing.
fn tree(alloc: Global, row: &Row<'_, '_>) -> Result<Bytes, Fault> {
    let mut tree = Bytes::new(alloc);
    for value in &row.values(alloc, &[Key::Listing, Key::Tree])? {
        let block = match value.key {
            Key::Tree => bytes(alloc, value.line)?,
            _ => listing(alloc, listing_named(row.blocks, value.line)?)?,
        };
        tree.append(block.as_slice())?;
    }
    for value in &row.values(alloc, &[Key::Added])? {
        let line = text(alloc, value.line)?;
        tree.append(entry(alloc, line.as_str(), None)?.as_bytes())?;
    }
    Ok(tree)
}

/// Adds the steps of some lines to others.
fn add_steps(alloc: Global, steps: &mut String, lines: &[Value<'_>]) -> Result<(), Fault> {
    for value in lines {
        if !steps.is_empty() {
            steps.push(';')?;
        }
        steps.push_str(text(alloc, value.line)?.as_str())?;
    }
    Ok(())
}

/// The guest of lines with steps, between those that are first and last.
fn guest_of(alloc: Global, row: &Row<'_, '_>, lines: &[Value<'_>]) -> Result<Bytes, Fault> {
    let mut steps = String::new(alloc);
    add_steps(
        alloc,
        &mut steps,
        row.values(alloc, &[Key::First])?.as_slice(),
    )?;
    add_steps(alloc, &mut steps, lines)?;
    add_steps(
        alloc,
        &mut steps,
        row.values(alloc, &[Key::Last])?.as_slice(),
    )?;
    guest(alloc, row.name(), steps.as_str())
}

/// The ELF file, before anything is put over it.
fn plain_elf(alloc: Global, row: &Row<'_, '_>) -> Result<Bytes, Fault> {
    let values = row.values(alloc, &[Key::Guest, Key::Program])?;
    match values.first() {
        Some(first) if first.key == Key::Guest => guest_of(alloc, row, values.as_slice()),
        Some(first) => program(alloc, row.blocks, first.line),
        None => Ok(Bytes::copy(alloc, &HELLO)?),
    }
}

/// Puts bytes over others.
fn put(alloc: Global, elf: Bytes, line: Line<'_>) -> Result<Bytes, Fault> {
    let (at, digits) = line.split();
    let at = number(line.with(at))?;
    let new = from_hex(alloc, digits)?;
    let mut elf = elf.into_vec();
    for (byte, new) in elf.iter_mut().skip(at as usize).zip(new.as_slice()) {
        *byte = *new;
    }
    Ok(Bytes::from(elf))
}

/// The ELF file.
fn elf(alloc: Global, row: &Row<'_, '_>) -> Result<Bytes, Fault> {
    let mut elf = plain_elf(alloc, row)?;
    for value in &row.values(alloc, &[Key::Put])? {
        elf = put(alloc, elf, value.line)?;
    }
    Ok(elf)
}

/// To how many bytes it is cut.
fn lengths(alloc: Global, row: &Row<'_, '_>) -> Result<Option<Cut>, Fault> {
    let Some(line) = row.value(alloc, Key::Cut)? else {
        return Ok(None);
    };
    let (from, to) = line.split();
    let from = number(line.with(from))?;
    let to = if to.text.is_empty() {
        from
    } else {
        number(to)?
    };
    Ok(Some(Cut { from, to }))
}

/// The words that are put before the others, of each kind of run.
fn options(alloc: Global, row: &Row<'_, '_>) -> Result<Vec<Vec<String>>, Fault> {
    let mut options = Vec::new(alloc);
    for value in &row.values(alloc, &[Key::Options])? {
        options.push(words(alloc, value.line)?)?;
    }
    if options.is_empty() {
        options.push(Vec::new(alloc))?;
    }
    Ok(options)
}

impl Row<'_, '_> {
    /// What is handed to its runs.
    pub(crate) fn scene(&self, alloc: Global) -> Result<Scene, Fault> {
        let words = match self.value(alloc, Key::Words)? {
            Some(line) => words(alloc, line)?,
            None => Vec::new(alloc),
        };
        if words.len() > 1000 {
            return Err(self.name().bad(Why::Words));
        }
        let input = self.bytes(alloc, Key::Input)?;
        let options = options(alloc, self)?;
        let tree = tree(alloc, self)?;
        let elf = elf(alloc, self)?;
        let cut = lengths(alloc, self)?;
        Ok(Scene {
            options,
            words,
            tree,
            elf,
            cut,
            input: input.unwrap_or(Bytes::new(alloc)),
        })
    }
}

//! What differs between what came of a run and what its row wants.

use crate::called::{Machine, Told};
use crate::files::left;
use crate::wants::{Calm, Wanted};
use guests::below::{Bytes, NoMemory};
use std::alloc::Global;

/// Adds what differs between two texts.
fn compare(
    alloc: Global,
    differs: &mut Vec<String>,
    what: &str,
    wanted: &[u8],
    got: &[u8],
) -> Result<(), NoMemory> {
    if wanted == got {
        return Ok(());
    }
    let wanted = String::from_utf8_lossy(alloc, wanted)?;
    let got = String::from_utf8_lossy(alloc, got)?;
    differs.push(format!(in alloc; "{what}: wanted {wanted:?}, got {got:?}")?)?;
    Ok(())
}

/// Whether a listing has a line.
fn has_line(listing: &[u8], line: &[u8]) -> bool {
    listing
        .split_inclusive(|byte| *byte == b'\n')
        .any(|other| other == line)
}

/// What has to be put out on a machine.
fn out<'a>(wanted: &'a Wanted<'_, '_>, machine: Machine) -> &'a [u8] {
    match &wanted.traced {
        Some(traced) if matches!(machine, Machine::Traced) => traced.as_slice(),
        _ => wanted.out.as_slice(),
    }
}

/// The bytes of errors, with what is told of the rules.
fn err(alloc: Global, wanted: &Wanted<'_, '_>, machine: Machine) -> Result<Bytes, NoMemory> {
    let mut err = Bytes::copy(alloc, wanted.err.as_slice())?;
    if matches!(machine, Machine::Calm) {
        let calm = wanted.calm.unwrap_or(Calm::Yes);
        err.append(calm.line(alloc)?.as_bytes())?;
    }
    Ok(err)
}

/// Adds what differs in the listing that is left.
fn compare_left(
    alloc: Global,
    differs: &mut Vec<String>,
    wanted: &Wanted<'_, '_>,
    elf: &[u8],
    got: &[u8],
) -> Result<(), NoMemory> {
    if wanted.is_refused() {
        compare(alloc, differs, "left", b"", got)?;
    }
    if let Some(block) = wanted.left {
        let listing = left(alloc, block, elf)?;
        compare(alloc, differs, "left", listing.as_slice(), got)?;
    }
    for line in &wanted.has {
        if !has_line(got, line.as_bytes()) {
            differs.push(format!(in alloc; "left: wanted the line {line:?}")?)?;
        }
    }
    for line in &wanted.lacks {
        if has_line(got, line.as_bytes()) {
            differs.push(format!(in alloc; "left: unwanted the line {line:?}")?)?;
        }
    }
    Ok(())
}

/// What differs.
pub(crate) fn differences(
    alloc: Global,
    wanted: &Wanted<'_, '_>,
    machine: Machine,
    elf: &[u8],
    told: &Told,
) -> Result<Vec<String>, NoMemory> {
    let mut differs = Vec::new(alloc);
    if told.status != wanted.status {
        let got = told.status;
        let wanted = wanted.status;
        differs.push(format!(in alloc; "status: wanted {wanted}, got {got}")?)?;
    }
    let err = err(alloc, wanted, machine)?;
    let out = out(wanted, machine);
    let line = wanted.line.as_bytes();
    compare(alloc, &mut differs, "line", line, told.line.as_slice())?;
    compare(alloc, &mut differs, "out", out, told.out.as_slice())?;
    compare(
        alloc,
        &mut differs,
        "err",
        err.as_slice(),
        told.err.as_slice(),
    )?;
    compare_left(alloc, &mut differs, wanted, elf, told.left.as_slice())?;
    Ok(differs)
}

/// What differs between the listings that both machines leave.
pub(crate) fn between(
    alloc: Global,
    native: &Told,
    traced: &Told,
) -> Result<Vec<String>, NoMemory> {
    let mut differs = Vec::new(alloc);
    let what = "left over mounts (wanted) and with a tracer (got)";
    let (native, traced) = (native.left.as_slice(), traced.left.as_slice());
    compare(alloc, &mut differs, what, native, traced)?;
    Ok(differs)
}

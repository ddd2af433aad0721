//! What must come of the runs of a row.

use crate::defaults::Row;
use crate::faults::{Fault, Why};
use crate::files::{entry, listing_named};
use crate::keys::Key;
use crate::lines::Line;
use crate::parts::Block;
use crate::text::{number, text};
use guests::below::{Bytes, NoMemory};
use std::alloc::Global;

/// On which machines a row is run.
#[derive(Clone, Copy)]
pub(crate) enum Machines {
    Both,
    Traced,
    Native,
}

/// What is told of the rules over mounts.
#[derive(Clone, Copy)]
pub(crate) enum Calm {
    Yes,
    Broken(u8),
}

/// What must come of a row.
#[derive(Drop)]
pub(crate) struct Wanted<'b, 'a> {
    pub(crate) machines: Machines,
    pub(crate) out: Bytes,
    /// What is put out with a tracer, where that is something else.
    pub(crate) traced: Option<Bytes>,
    pub(crate) err: Bytes,
    pub(crate) calm: Option<Calm>,
    pub(crate) status: u8,
    /// The last line of the program.
    pub(crate) line: String,
    /// The listing that is left.
    pub(crate) left: Option<&'b Block<'a>>,
    pub(crate) has: Vec<String>,
    pub(crate) lacks: Vec<String>,
}

impl Wanted<'_, '_> {
    /// Whether the run isn't begun, or not told to its end: then nothing is left.
    pub(crate) fn is_refused(&self) -> bool {
        match self.status {
            121 | 122 | 125 => !self.line.is_empty(),
            _ => false,
        }
    }
}

impl Calm {
    /// What `--calm` puts at last.
    pub(crate) fn line(self, alloc: Global) -> Result<String, NoMemory> {
        match self {
            Calm::Yes => Ok(String::from_str(alloc, "calm: yes\n")?),
            Calm::Broken(rule) => Ok(format!(in alloc; "calm: rule {rule}\n")?),
        }
    }
}

/// A number below 256.
fn small(line: Line<'_>) -> Result<u8, Fault> {
    match line.text.parse::<u8>() {
        Ok(number) => Ok(number),
        Err(_error) => Err(line.bad(Why::Number)),
    }
}

fn made_on(alloc: Global, row: &Row<'_, '_>) -> Result<Machines, Fault> {
    match row.value(alloc, Key::Only)? {
        Some(line) => match line.text {
            "traced" => Ok(Machines::Traced),
            "native" => Ok(Machines::Native),
            _ => Err(line.bad(Why::Value)),
        },
        None => Ok(Machines::Both),
    }
}

fn rules(alloc: Global, row: &Row<'_, '_>) -> Result<Option<Calm>, Fault> {
    match row.value(alloc, Key::Calm)? {
        Some(line) if line.text == "yes" => Ok(Some(Calm::Yes)),
        Some(line) => Ok(Some(Calm::Broken(small(line)?))),
        None => Ok(None),
    }
}

/// The status, and the last line.
fn answer(alloc: Global, row: &Row<'_, '_>) -> Result<(u8, String), Fault> {
    let Some(value) = row.value(alloc, Key::Answer)? else {
        return Ok((0, String::new(alloc)));
    };
    let (status, line) = value.split();
    let status = small(value.with(status))?;
    if line.text.is_empty() {
        return Ok((status, String::new(alloc)));
    }
    let line = line.text;
    Ok((status, format!(in alloc; "proot: {line}\n")?))
}

/// Lines of listings, without their ends.
fn entries(alloc: Global, row: &Row<'_, '_>, key: Key) -> Result<Vec<String>, Fault> {
    let mut entries = Vec::new(alloc);
    for value in &row.values(alloc, &[key])? {
        let line = text(alloc, value.line)?;
        entries.push(entry(alloc, line.as_str(), None)?)?;
    }
    Ok(entries)
}

impl<'b, 'a> Row<'b, 'a> {
    /// What must come of its runs.
    pub(crate) fn wanted(&self, alloc: Global) -> Result<Wanted<'b, 'a>, Fault> {
        let machines = made_on(alloc, self)?;
        let out = self.bytes(alloc, Key::Out)?;
        let traced = self.bytes(alloc, Key::Traced)?;
        let err = self.bytes(alloc, Key::Errors)?;
        let calm = rules(alloc, self)?;
        let (status, line) = answer(alloc, self)?;
        let left = match self.value(alloc, Key::Left)? {
            Some(name) => Some(listing_named(self.blocks, name)?),
            None => None,
        };
        let has = entries(alloc, self, Key::Has)?;
        let lacks = entries(alloc, self, Key::Lacks)?;
        Ok(Wanted {
            machines,
            out: out.unwrap_or(Bytes::new(alloc)),
            traced,
            err: err.unwrap_or(Bytes::new(alloc)),
            calm,
            status,
            line,
            left,
            has,
            lacks,
        })
    }
}

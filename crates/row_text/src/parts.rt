//! Blocks of lines.

use crate::faults::{Fault, Why};
use crate::keys::Key;
use crate::lines::Line;
use std::alloc::Global;

/// What a block is.
#[derive(Clone, Copy)]
pub(crate) enum Kind {
    Listing,
    Guest,
    Code,
    File,
    Default,
    Row,
}

impl Kind {
    /// Whether a block of this kind is an ELF file.
    pub(crate) fn is_program(self) -> bool {
        match self {
            Kind::Guest | Kind::Code | Kind::File => true,
            Kind::Listing | Kind::Default | Kind::Row => false,
        }
    }
}

/// Lines behind one that says what they are.
#[derive(Drop)]
pub(crate) struct Block<'a> {
    pub(crate) kind: Kind,
    /// Its name, and the line where it begins.
    pub(crate) name: Line<'a>,
    pub(crate) lines: Vec<Line<'a>>,
}

/// The kind of block that is written so.
fn kind_of(word: &str) -> Option<Kind> {
    match word {
        "listing" => Some(Kind::Listing),
        "guest" => Some(Kind::Guest),
        "code" => Some(Kind::Code),
        "file" => Some(Kind::File),
        "default" => Some(Kind::Default),
        "row" => Some(Kind::Row),
        _ => None,
    }
}

impl<'a> Block<'a> {
    /// The block that a line begins.
    fn begin(alloc: Global, line: Line<'a>) -> Result<Block<'a>, Fault> {
        let (word, name) = line.split();
        match kind_of(word) {
            Some(kind) => Ok(Block {
                kind,
                name,
                lines: Vec::new(alloc),
            }),
            None => Err(line.bad(Why::Block)),
        }
    }

    /// Whether it has a line with this key.
    fn has(&self, key: Key) -> bool {
        self.lines
            .iter()
            .any(|line| Key::of(line.split().0) == Some(key))
    }

    /// Whether a line can stand in it.
    fn allow(&self, line: Line<'a>) -> Result<(), Fault> {
        if !matches!(self.kind, Kind::Default | Kind::Row) {
            return Ok(());
        }
        match Key::of(line.split().0) {
            Some(key) if !key.is_repeated() && self.has(key) => Err(line.bad(Why::Twice)),
            Some(_key) => Ok(()),
            None => Err(line.bad(Why::Key)),
        }
    }

    fn add(&mut self, line: Line<'a>) -> Result<(), Fault> {
        self.allow(line)?;
        self.lines.push(line)?;
        Ok(())
    }
}

/// The blocks of a text.
pub(crate) fn blocks<'a>(alloc: Global, text: &'a str) -> Result<Vec<Block<'a>>, Fault> {
    let mut blocks: Vec<Block<'a>> = Vec::new(alloc);
    let mut open: Option<Block<'a>> = None;
    let mut number = 0_u32;
    for text in text.lines() {
        number = number.saturating_add(1);
        let line = Line { number, text };
        if text.starts_with('#') {
            continue;
        }
        if text.is_empty() {
            if let Some(block) = open.take() {
                blocks.push(block)?;
            }
            continue;
        }
        match &mut open {
            Some(block) => block.add(line)?,
            None => open = Some(Block::begin(alloc, line)?),
        }
    }
    if let Some(block) = open {
        blocks.push(block)?;
    }
    Ok(blocks)
}

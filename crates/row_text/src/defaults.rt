//! Rows with the defaults that hold for them.

use crate::faults::Fault;
use crate::keys::Key;
use crate::lines::Line;
use crate::parts::{Block, Kind};
use crate::text::bytes;
use guests::below::{Bytes, NoMemory};
use std::alloc::Global;

/// A key and its value.
#[derive(Clone, Copy)]
pub(crate) struct Value<'a> {
    pub(crate) key: Key,
    pub(crate) line: Line<'a>,
}

/// A row, the defaults that hold for it, and all blocks.
#[derive(Clone, Copy)]
pub(crate) struct Row<'b, 'a> {
    own: &'b Block<'a>,
    default: Option<&'b Block<'a>>,
    pub(crate) blocks: &'b [Block<'a>],
}

/// The values of some keys in a block.
fn values_in<'a>(
    alloc: Global,
    block: &Block<'a>,
    keys: &[Key],
) -> Result<Vec<Value<'a>>, NoMemory> {
    let mut values = Vec::new(alloc);
    for line in &block.lines {
        let (word, line) = line.split();
        if let Some(key) = Key::of(word) {
            if keys.contains(&key) {
                values.push(Value { key, line })?;
            }
        }
    }
    Ok(values)
}

impl<'b, 'a> Row<'b, 'a> {
    /// The row that a block is, if it is one, behind these blocks.
    pub(crate) fn at(blocks: &'b [Block<'a>], place: usize) -> Option<Row<'b, 'a>> {
        let own = blocks.get(place)?;
        if !matches!(own.kind, Kind::Row) {
            return None;
        }
        let mut default = None;
        for block in blocks.iter().take(place) {
            if matches!(block.kind, Kind::Default) {
                default = Some(block);
            }
        }
        Some(Row {
            own,
            default,
            blocks,
        })
    }

    /// What it shows.
    pub(crate) fn name(&self) -> Line<'a> {
        self.own.name
    }

    /// The values of some keys: its own, or else those of the defaults.
    pub(crate) fn values(&self, alloc: Global, keys: &[Key]) -> Result<Vec<Value<'a>>, NoMemory> {
        let own = values_in(alloc, self.own, keys)?;
        match self.default {
            Some(default) if own.is_empty() => values_in(alloc, default, keys),
            _ => Ok(own),
        }
    }

    /// The value of a key.
    pub(crate) fn value(&self, alloc: Global, key: Key) -> Result<Option<Line<'a>>, NoMemory> {
        let values = self.values(alloc, &[key])?;
        Ok(values.first().map(|value| value.line))
    }

    /// The bytes of all values of a key, if it has one.
    pub(crate) fn bytes(&self, alloc: Global, key: Key) -> Result<Option<Bytes>, Fault> {
        let values = self.values(alloc, &[key])?;
        if values.is_empty() {
            return Ok(None);
        }
        let mut all = Bytes::new(alloc);
        for value in &values {
            all.append(bytes(alloc, value.line)?.as_slice())?;
        }
        Ok(Some(all))
    }
}

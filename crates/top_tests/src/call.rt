//! A call of the top call, and what came of it.
ghost use Rattle.std.specs.Prelude.{◌<◌, ◌^◌, length};

use guests::below::{Bytes, NoMemory};
use pr_call::below::{MemSink, MemSource};
use pr_call::{Answer, Which, proot};
use std::alloc::Global;
use std::test::Fail;

/// How the objects move bytes.
#[derive(Clone, Copy)]
pub enum Moving {
    /// As many as there are.
    Whole,
    /// Each source gives one byte at a call.
    ByteByByte,
    /// A call of one object fails, with its number, counted from 0.
    Failing(Which, u32),
    /// A call of the out sink fails, and keeps as many bytes.
    Torn(u32, u32),
}

/// What is handed to the top call. The words stand between blanks.
#[derive(Clone, Copy)]
pub struct Asked<'a> {
    pub words: &'a str,
    pub tree: &'a [u8],
    pub elf: &'a [u8],
    pub input: &'a [u8],
    pub moving: Moving,
}

/// What came of it.
#[derive(Drop)]
pub struct Told {
    pub answer: Answer,
    pub out: MemSink,
    pub err: MemSink,
    pub left: MemSink,
}

impl Told {
    /// Whether the program ends with this status and tells this last line.
    pub fn ends(&self, alloc: Global, status: u8, line: &str) -> Result<bool, NoMemory> {
        let told = self.answer.line(alloc)?;
        Ok(self.answer.status() == status && told.as_slice() == line.as_bytes())
    }
}

/// The words between the blanks of a text.
fn words_of(alloc: Global, text: &str) -> Result<Vec<String>, Fail> {
    let mut words = Vec::new(alloc);
    for word in text.split(' ') {
        if !word.is_empty() {
            words.push(String::from_str(alloc, word)?)?;
        }
    }
    Ok(words)
}

/// The calls of an object that fail.
fn failing(alloc: Global, which: Which, moving: Moving) -> Result<Vec<u32>, Fail> {
    let mut calls = Vec::new(alloc);
    match moving {
        Moving::Failing(object, call) => {
            if object == which {
                calls.push(call)?;
            }
        }
        Moving::Torn(call, _keep) => {
            if which == Which::Out {
                calls.push(call)?;
            }
        }
        Moving::Whole | Moving::ByteByByte => {}
    }
    Ok(calls)
}

fn source(alloc: Global, which: Which, bytes: &[u8], moving: Moving) -> Result<MemSource, Fail> {
    let bytes = Bytes::copy(alloc, bytes)?;
    let fails = failing(alloc, which, moving)?;
    match moving {
        Moving::ByteByByte => Ok(MemSource::slow(bytes, 1, fails)),
        _ => Ok(MemSource::new(bytes, fails)),
    }
}

fn sink(alloc: Global, which: Which, moving: Moving) -> Result<MemSink, Fail> {
    let fails = failing(alloc, which, moving)?;
    match moving {
        Moving::Torn(_call, keep) => Ok(MemSink::torn(alloc, fails, keep)),
        _ => Ok(MemSink::new(alloc, fails)),
    }
}

/// What is read.
#[derive(Drop)]
struct Sources {
    tree: MemSource,
    elf: MemSource,
    input: MemSource,
}

impl Sources {
    fn new(alloc: Global, asked: &Asked) -> Result<Sources, Fail> {
        let moving = asked.moving;
        let tree = source(alloc, Which::Tree, asked.tree, moving)?;
        let elf = source(alloc, Which::Elf, asked.elf, moving)?;
        let input = source(alloc, Which::Input, asked.input, moving)?;
        Ok(Sources { tree, elf, input })
    }
}

/// What is written.
#[derive(Drop)]
struct Sinks {
    out: MemSink,
    err: MemSink,
    left: MemSink,
}

impl Sinks {
    fn new(alloc: Global, moving: Moving) -> Result<Sinks, Fail> {
        let out = sink(alloc, Which::Out, moving)?;
        let err = sink(alloc, Which::Err, moving)?;
        let left = sink(alloc, Which::Left, moving)?;
        Ok(Sinks { out, err, left })
    }
}

/// The call alone, in a function that lets nothing go: its clauses beside what is let go are dear to prove.
fn answer(alloc: Global, words: &[String], sources: &mut Sources, sinks: &mut Sinks) -> Answer
    requires { length words.now < 2 ^ 32 }
{
    proot(
        alloc,
        words,
        &mut sources.tree,
        &mut sources.elf,
        &mut sources.input,
        &mut sinks.out,
        &mut sinks.err,
        &mut sinks.left,
    )
}

/// Makes the call.
pub fn call(alloc: Global, asked: Asked) -> Result<Told, Fail> {
    let words = words_of(alloc, asked.words)?;
    if words.len() > 1000 {
        return Err(Fail::from("too many words"));
    }
    let mut sources = Sources::new(alloc, &asked)?;
    let mut sinks = Sinks::new(alloc, asked.moving)?;
    let answer = answer(alloc, words.as_slice(), &mut sources, &mut sinks);
    let Sinks { out, err, left } = sinks;
    Ok(Told {
        answer,
        out,
        err,
        left,
    })
}

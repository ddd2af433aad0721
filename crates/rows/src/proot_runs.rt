//! Runs through the public call.
ghost use Rattle.std.specs.Prelude.{◌<◌, ◌^◌, length};

use pr_call::below::{CleanSink, CleanSource};
use pr_call::{Answer, proot};
use row_text::below::{Bytes, NoMemory};
use row_text::{Runner, Told};
use std::alloc::Global;

/// The public call, over sources and sinks in memory.
#[derive(Clone, Copy)]
pub(crate) struct Proot;

/// What the call reads.
#[derive(Drop)]
struct Sources {
    tree: CleanSource,
    elf: CleanSource,
    input: CleanSource,
}

/// What it writes.
#[derive(Drop)]
struct Sinks {
    out: CleanSink,
    err: CleanSink,
    left: CleanSink,
}

/// A source of these bytes.
fn source(alloc: Global, bytes: &[u8]) -> Result<CleanSource, NoMemory> {
    Ok(CleanSource::new(Bytes::copy(alloc, bytes)?))
}

/// What stands in a sink.
fn got(alloc: Global, sink: &CleanSink) -> Result<Bytes, NoMemory> {
    Bytes::copy(alloc, sink.got())
}

/// Makes the call.
fn answer(alloc: Global, words: &[String], sources: &mut Sources, sinks: &mut Sinks) -> Answer
    requires { length words.now < 2 ^ 32 }
{
    proot(
        alloc,
        words,
        &mut sources.tree,
        &mut sources.elf,
        &mut sources.input,
        &mut sinks.out,
        &mut sinks.err,
        &mut sinks.left,
    )
}

/// What came of the call.
fn told(alloc: Global, answer: Answer, sinks: &Sinks) -> Result<Told, NoMemory> {
    Ok(Told {
        status: answer.status(),
        line: answer.line(alloc)?,
        out: got(alloc, &sinks.out)?,
        err: got(alloc, &sinks.err)?,
        left: got(alloc, &sinks.left)?,
    })
}

impl Runner for Proot {
    fn run(
        &self,
        alloc: Global,
        words: &[String],
        tree: &[u8],
        elf: &[u8],
        input: &[u8],
    ) -> Result<Told, NoMemory> {
        let mut sources = Sources {
            tree: source(alloc, tree)?,
            elf: source(alloc, elf)?,
            input: source(alloc, input)?,
        };
        let mut sinks = Sinks {
            out: CleanSink::new(alloc),
            err: CleanSink::new(alloc),
            left: CleanSink::new(alloc),
        };
        let answer = answer(alloc, words, &mut sources, &mut sinks);
        told(alloc, answer, &sinks)
    }
}

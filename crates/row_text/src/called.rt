//! Calls that make the runs of rows, and what comes of them.
ghost use Rattle.std.specs.Prelude.{◌<◌, ◌^◌, length};

use crate::scenes::Scene;
use guests::below::{Bytes, NoMemory};
use std::alloc::Global;

/// How many words a call may have.
const MOST_WORDS: usize = 10_000;

/// The machine of a run.
#[derive(Clone, Copy)]
pub(crate) enum Machine {
    Traced,
    Native,
    /// Over mounts, where it is told whether the run was calm.
    Calm,
}

impl Machine {
    /// The words that choose it.
    pub(crate) fn words(self) -> &'static str {
        match self {
            Machine::Traced => "",
            Machine::Native => "--native",
            Machine::Calm => "--native --calm",
        }
    }
}

/// What came of a run: the status, the last line of the program, and what was put out.
#[derive(Drop)]
pub struct Told {
    pub status: u8,
    pub line: Bytes,
    pub out: Bytes,
    pub err: Bytes,
    pub left: Bytes,
}

/// What makes runs.
pub trait Runner {
    /// Makes the run of these words with what the sources hold.
    fn run(
        &self,
        alloc: Global,
        words: &[String],
        tree: &[u8],
        elf: &[u8],
        input: &[u8],
    ) -> Result<Told, NoMemory>
        requires { length words.now < 2 ^ 32 };
}

/// Adds copies of words.
fn copy_words(alloc: Global, words: &mut Vec<String>, more: &[String]) -> Result<(), NoMemory> {
    for word in more {
        words.push(String::from_str(alloc, word.as_str())?)?;
    }
    Ok(())
}

/// The words of a run.
fn all_words(
    alloc: Global,
    machine: Machine,
    options: &[String],
    words: &[String],
) -> Result<Vec<String>, NoMemory> {
    let mut all = Vec::new(alloc);
    for word in machine.words().split(' ') {
        if !word.is_empty() {
            all.push(String::from_str(alloc, word)?)?;
        }
    }
    copy_words(alloc, &mut all, options)?;
    copy_words(alloc, &mut all, words)?;
    Ok(all)
}

/// Makes a run of a scene on a machine, with these options and this ELF file.
pub(crate) fn call<C: Runner>(
    alloc: Global,
    runner: &C,
    machine: Machine,
    options: &[String],
    scene: &Scene,
    elf: &[u8],
) -> Result<Told, NoMemory> {
    let words = all_words(alloc, machine, options, scene.words.as_slice())?;
    if words.len() > MOST_WORDS {
        return Err(NoMemory);
    }
    runner.run(
        alloc,
        words.as_slice(),
        scene.tree.as_slice(),
        elf,
        scene.input.as_slice(),
    )
}

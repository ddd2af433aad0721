//! A listing, read from the standard input, is written in its canonical form. With a number as its
//! word the program adds, looks up and removes that many names of one directory instead.
//!
//! What is proved, with the clause or the law that carries it:
//!
//! A small program on the tree and its listing. Without a word it reads a listing from its input and writes it in its canonical form: `rewritten`
//! says of each answer what the listing is like. A line that begins with `x ` is refused, and nothing else is refused so; a bad line is the first
//! that the definition finds, told by its number and in words, with status 1.
//!
//! Only tested, or not shown: With a number the program adds, looks up and removes that many names of one directory: `bench/listing`, outside the
//! gate.
#![tactic(auto)]

ghost use Rattle.list_tree.specs.Rewritten.{IsRewritten};

mod fault;
mod names;

use crate::fault::Fault;
use crate::names::{Counts, exercise};
use kr_text::below::Bytes;
use kr_text::{ListFault, read, wants_elf, write};
use std::alloc::Global;
use std::env;
use std::io::{Read, Write};
use std::process::ExitCode;

/// The canonical form of a listing, or what is wrong with it.
fn rewritten(alloc: Global, listing: &[u8]) -> Result<Bytes, Fault>
    ensures { IsRewritten listing.now result }
{
    if wants_elf(listing) {
        return Err(Fault::Elf);
    }
    match read(alloc, listing, None) {
        Ok((tree, user)) => Ok(write(alloc, &tree, user)?),
        Err(ListFault::Bad { line, why }) => Err(Fault::Line { line, why }),
        Err(ListFault::NoMemory) => Err(Fault::Memory),
    }
}

/// Reads a listing, and writes it in its canonical form.
fn rewrite(rt: &HostRuntime) -> Result<(), Fault> {
    let mut listing = Vec::new(rt.alloc());
    let _length = rt
        .stdin()
        .read_to_end(&mut listing)
        .map_err(|_| Fault::Input)?;
    let canonical = rewritten(rt.alloc(), listing.as_slice())?;
    rt.stdout()
        .write_all(canonical.as_slice())
        .map_err(|_| Fault::Output)
}

/// Adds, looks up and removes as many names as `word` says, and tells how often each was done.
fn count(rt: &HostRuntime, word: &str) -> Result<(), Fault> {
    let Ok(number) = word.parse::<u32>() else {
        return Err(Fault::Word);
    };
    let Counts {
        added,
        found,
        removed,
        left,
    } = exercise(rt.alloc(), number)?;
    println!(rt; "added {added}, found {found}, removed {removed}, left {left}").map_err(
        |_| Fault::Output,
    )
}

fn run(rt: &HostRuntime) -> Result<(), Fault> {
    let words = match env::args(rt) {
        Ok(words) => words.skip(1).collect(rt.alloc()),
        Err(_) => return Err(Fault::Memory),
    };
    let words: Vec<String> = match words {
        Ok(words) => words,
        Err(_) => return Err(Fault::Memory),
    };
    match words.as_slice() {
        [] => rewrite(rt),
        [number] => count(rt, number.as_str()),
        _ => Err(Fault::Word),
    }
}

fn main(rt: HostRuntime) -> ExitCode {
    match run(&rt) {
        Ok(()) => ExitCode::SUCCESS,
        Err(fault) => {
            let _ = eprintln!(rt; "list_tree: {fault}");
            ExitCode::from(1)
        }
    }
}

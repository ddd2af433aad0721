//! What the program does: it opens the files, calls the top call, and tells its answer.

use crate::top::proot;
use law_loosely::below::law_machines::below::{Answer, FileSink, FileSource, ReplacingSink};
use std::env;
use std::fs::{File, OpenOptions};
use std::io::{self, ErrorKind, Write};
use std::process::ExitCode;

/// How many words may stand behind the first three: places of words are numbers of 32 bits.
const MOST_WORDS: usize = 0xffff_ffff;

const USAGE: &str = "proot: usage: proot TREE ELF LEFT [option] ... [command]";

/// The words behind the program's name.
fn words(rt: &HostRuntime) -> io::Result<Vec<String>> {
    let words = env::args(rt)?.skip(1).collect(rt.alloc())?;
    Ok(words)
}

fn usage(rt: &HostRuntime) -> ExitCode {
    let _ = eprintln!(rt; "{USAGE}");
    ExitCode::from(125)
}

/// Tells an answer on the standard error and by the status. Without memory for the line, or where
/// the standard error fails, the status alone tells it.
fn tell(rt: &HostRuntime, answer: Answer) -> ExitCode {
    if let Ok(line) = answer.line(rt.alloc()) {
        let _ = rt.stderr().write_all(line.as_slice());
    }
    ExitCode::from(answer.status())
}

/// Opens LEFT as it is, and makes it where it is missing. What stands there goes when the listing comes, so it may be TREE or ELF, and an
/// ending without a listing loses nothing.
fn open_left(rt: &HostRuntime, name: &str) -> io::Result<File> {
    OpenOptions::new().write(true).create(true).open(rt, name)
}

/// Runs the program on its own words, and with the files that they name.
pub fn run(rt: &HostRuntime) -> ExitCode {
    let words = match words(rt) {
        Ok(words) => words,
        Err(error) if error.kind() == ErrorKind::OutOfMemory => {
            return tell(rt, Answer::NoMemory);
        }
        // A word is no text.
        Err(_) => return usage(rt),
    };
    let [tree, elf, left, command @ ..] = words.as_slice() else {
        return usage(rt);
    };
    if command.len() > MOST_WORDS {
        return usage(rt);
    }
    let answer = proot(
        rt.alloc(),
        command,
        &mut FileSource::over(File::open(rt, tree.as_str()).ok()),
        &mut FileSource::over(File::open(rt, elf.as_str()).ok()),
        &mut FileSource::over(Some(rt.stdin())),
        &mut FileSink::over(Some(rt.stdout())),
        &mut FileSink::over(Some(rt.stderr())),
        &mut ReplacingSink::over(open_left(rt, left.as_str()).ok()),
    );
    tell(rt, answer)
}

//! Guests as texts of calls, and as words of code.
//!
//! In a text, steps are parted by `;` and the words of a step by blanks. A step may begin with who makes it, `child` or `parent`, where
//! not each process does, and with what is shown of its answer where that isn't its number: `quiet` for nothing, `bytes` for as many
//! bytes of the buffer as it says. Then come the name of the call and its arguments: `buf` for the buffer, `at` for the working directory in place
//! of a descriptor, `@k` for the answer of the step at the place `k`, counted from 0, `[a,b]` for a list of texts and `[]` for an empty one,
//! a path that begins with `/` or `.`, any other text behind `'`, and numbers. The step `sp` sets the stack pointer to a number.

use crate::HELLO;
use pr_gen::below::{Bytes, NoMemory, Texts};
use pr_gen::{Arg, ProbeStep, Show, Who, is_probe, probe};
use std::alloc::{AllocError, AllocFailed, Global};

/// Why there is no guest.
#[derive(Clone, Copy, Debug)]
pub enum GuestFault {
    /// The text is none of calls.
    NoGuest,
    NoMemory,
}

impl From<NoMemory> for GuestFault {
    fn from(_error: NoMemory) -> GuestFault {
        GuestFault::NoMemory
    }
}

impl From<AllocError> for GuestFault {
    fn from(_error: AllocError) -> GuestFault {
        GuestFault::NoMemory
    }
}

impl<T: Drop> From<AllocFailed<T>> for GuestFault {
    fn from(_error: AllocFailed<T>) -> GuestFault {
        GuestFault::NoMemory
    }
}

/// AT_FDCWD, the working directory in place of a descriptor.
const HERE: u64 = 0xffff_ff9c;

/// The calls that guests make, with their numbers.
const CALLS: &[(&str, u16)] = &[
    ("getcwd", 17),
    ("dup", 23),
    ("dup3", 24),
    ("fcntl", 25),
    ("ioctl", 29),
    ("mkdirat", 34),
    ("unlinkat", 35),
    ("symlinkat", 36),
    ("linkat", 37),
    ("ftruncate", 46),
    ("faccessat", 48),
    ("chdir", 49),
    ("fchdir", 50),
    ("chroot", 51),
    ("fchmod", 52),
    ("fchmodat", 53),
    ("fchownat", 54),
    ("fchown", 55),
    ("openat", 56),
    ("close", 57),
    ("pipe2", 59),
    ("getdents64", 61),
    ("lseek", 62),
    ("read", 63),
    ("write", 64),
    ("readv", 65),
    ("writev", 66),
    ("readlinkat", 78),
    ("newfstatat", 79),
    ("fstat", 80),
    ("exit", 93),
    ("exit_group", 94),
    ("set_tid_address", 96),
    ("rt_sigaction", 134),
    ("rt_sigprocmask", 135),
    ("setregid", 143),
    ("setgid", 144),
    ("setreuid", 145),
    ("setuid", 146),
    ("setresuid", 147),
    ("getresuid", 148),
    ("setresgid", 149),
    ("getresgid", 150),
    ("getgroups", 158),
    ("setgroups", 159),
    ("uname", 160),
    ("umask", 166),
    ("getpid", 172),
    ("getppid", 173),
    ("getuid", 174),
    ("geteuid", 175),
    ("getgid", 176),
    ("getegid", 177),
    ("gettid", 178),
    ("brk", 214),
    ("munmap", 215),
    ("clone", 220),
    ("execve", 221),
    ("mmap", 222),
    ("mprotect", 226),
    ("wait4", 260),
    ("renameat2", 276),
    // No call has this number.
    ("notes", 1000),
];

/// The number of a call.
fn number_of(name: &str) -> Option<u16> {
    for (call, number) in CALLS {
        if *call == name {
            return Some(*number);
        }
    }
    None
}

/// A number, which is in hexadecimal behind `0x`.
fn number(word: &str) -> Option<u64> {
    match word.strip_prefix("0x") {
        Some(digits) => u64::from_str_radix(digits, 16).ok(),
        None => Some(word.parse::<i64>().ok()?.cast_unsigned()),
    }
}

/// The words of a list of texts.
fn words_in(word: &str) -> Option<&str> {
    word.strip_prefix('[')?.strip_suffix(']')
}

/// The text that an argument is.
fn text_in(word: &str) -> Option<&str> {
    if word.starts_with('/') || word.starts_with('.') {
        return Some(word);
    }
    word.strip_prefix('\'')
}

/// A list of texts.
fn list_of(alloc: Global, words: &str) -> Result<Arg, GuestFault> {
    let mut texts = Texts::new(alloc);
    if words.is_empty() {
        return Ok(Arg::List(texts));
    }
    for word in words.split(',') {
        texts.push(Bytes::copy(alloc, word.as_bytes())?)?;
    }
    Ok(Arg::List(texts))
}

/// A number, or what stands for one.
fn number_at(word: &str) -> Result<Arg, GuestFault> {
    if word == "buf" {
        return Ok(Arg::Buf);
    }
    if word == "at" {
        return Ok(Arg::Num(HERE));
    }
    match word.strip_prefix('@') {
        Some(place) => Ok(Arg::Answer(place.parse::<u32>().ok().ok_or(GuestFault::NoGuest)?)),
        None => Ok(Arg::Num(number(word).ok_or(GuestFault::NoGuest)?)),
    }
}

fn argument(alloc: Global, word: &str) -> Result<Arg, GuestFault> {
    if let Some(words) = words_in(word) {
        return list_of(alloc, words);
    }
    match text_in(word) {
        Some(text) => Ok(Arg::Text(Bytes::copy(alloc, text.as_bytes())?)),
        None => number_at(word),
    }
}

/// The argument that stands behind `place` words; 0 where there is none.
fn argument_at(alloc: Global, words: &[&str], place: usize) -> Result<Arg, GuestFault> {
    match words.get(place) {
        Some(word) => argument(alloc, word),
        None => Ok(Arg::Num(0)),
    }
}

/// The arguments of a call, behind its name.
fn arguments(alloc: Global, words: &[&str]) -> Result<[Arg; 6], GuestFault> {
    let a0 = argument_at(alloc, words, 1)?;
    let a1 = argument_at(alloc, words, 2)?;
    let a2 = argument_at(alloc, words, 3)?;
    let a3 = argument_at(alloc, words, 4)?;
    let a4 = argument_at(alloc, words, 5)?;
    let a5 = argument_at(alloc, words, 6)?;
    Ok([a0, a1, a2, a3, a4, a5])
}

/// A step of these words, the first of which is its name.
fn step_of(alloc: Global, words: &[&str], who: Who, show: Show) -> Result<ProbeStep, GuestFault> {
    let name = *words.first().ok_or(GuestFault::NoGuest)?;
    if name == "sp" {
        let sp = *words.get(1).ok_or(GuestFault::NoGuest)?;
        return Ok(ProbeStep::SetSp(number(sp).ok_or(GuestFault::NoGuest)?));
    }
    let number = number_of(name).ok_or(GuestFault::NoGuest)?;
    let args = arguments(alloc, words)?;
    Ok(ProbeStep::Call {
        number,
        args,
        who,
        show,
    })
}

fn step(alloc: Global, text: &str) -> Result<ProbeStep, GuestFault> {
    let mut who = Who::All;
    let mut show = Show::Number;
    let mut words = Vec::new(alloc);
    for word in text.split(' ') {
        match word {
            "" => {}
            "child" => who = Who::Child,
            "parent" => who = Who::Parent,
            "quiet" => show = Show::Nothing,
            "bytes" => show = Show::Content,
            _ => words.push(word)?,
        }
    }
    step_of(alloc, words.as_slice(), who, show)
}

/// The file of a guest that is written as a text.
pub fn guest(alloc: Global, text: &str) -> Result<Bytes, GuestFault> {
    let mut steps = Vec::new(alloc);
    for one in text.split(';') {
        steps.push(step(alloc, one)?)?;
    }
    if !is_probe(steps.as_slice()) {
        return Err(GuestFault::NoGuest);
    }
    Ok(probe(alloc, steps.as_slice())?)
}

/// Where the code of the hello file begins in it.
const CODE: usize = 120;

/// The hello file with other code: words, and bytes behind them.
pub fn coded(alloc: Global, words: &[u32], behind: &[u8]) -> Result<Bytes, NoMemory> {
    let mut code = Bytes::new(alloc);
    for word in words {
        code.append(&word.to_le_bytes())?;
    }
    code.append(behind)?;
    let size = CODE.saturating_add(code.len()) as u64;
    // The two sizes of its only segment stand in front of the last eight bytes of the headers.
    let mut file = Bytes::copy(alloc, &HELLO[..96])?;
    file.append(&size.to_le_bytes())?;
    file.append(&size.to_le_bytes())?;
    file.append(&HELLO[112..CODE])?;
    file.append(code.as_slice())?;
    Ok(file)
}

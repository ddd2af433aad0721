//! Rows of memories: actions with a `;` between each two, carried out in order on one room.
ghost use Rattle.std.specs.Prelude.{◌≡◌, ◌+◌, ◌*◌, ◌%◌, ◌≤◌, IfOk, IsTrue};
ghost use Rattle.rv_loops.specs.pr_base.Page.{page_size};
ghost use Rattle.rv_loops.specs.rv_mem.Memory.{page_count};

use crate::fault::{Fault, Why};
use crate::number::{small, value};
use rv_loops::below::{
    BadAddress, MapFault, PAGES_END, Rights, Room, Space, StoreFault, TextFault, Use,
};
use std::alloc::{AllocError, Global};

/// What an action answers.
#[derive(Clone, Copy)]
pub enum Answer {
    Ok,
    Bad,
    Full,
    Long,
    NoMemory,
    /// Other bytes are there.
    Differs,
    Yes,
    No,
    Number(u64),
}

impl Answer {
    /// The word of an answer, and its number, or 0.
    fn told(self) -> (&'static str, u64) {
        match self {
            Answer::Ok => ("ok", 0),
            Answer::Bad => ("bad", 0),
            Answer::Full => ("full", 0),
            Answer::Long => ("long", 0),
            Answer::NoMemory => ("no memory", 0),
            Answer::Differs => ("other bytes", 0),
            Answer::Yes => ("yes", 0),
            Answer::No => ("no", 0),
            Answer::Number(number) => ("number", number),
        }
    }
}

/// The answer that is written so.
fn answer_of(word: &str) -> Result<Answer, Fault<'_>> {
    match word {
        "ok" => Ok(Answer::Ok),
        "bad" => Ok(Answer::Bad),
        "full" => Ok(Answer::Full),
        "long" => Ok(Answer::Long),
        "yes" => Ok(Answer::Yes),
        "no" => Ok(Answer::No),
        _ => Ok(Answer::Number(value(word)?)),
    }
}

fn told(is_so: bool) -> Answer {
    if is_so { Answer::Yes } else { Answer::No }
}

fn told_map(outcome: Result<(), MapFault>) -> Answer {
    match outcome {
        Ok(()) => Answer::Ok,
        Err(MapFault::Full) => Answer::Full,
        Err(MapFault::NoMemory) => Answer::NoMemory,
    }
}

fn told_store(outcome: Result<(), StoreFault>) -> Answer {
    match outcome {
        Ok(()) => Answer::Ok,
        Err(StoreFault::BadAddress) => Answer::Bad,
        Err(StoreFault::NoMemory) => Answer::NoMemory,
    }
}

/// The rights that letters stand for.
fn rights(word: &str) -> Rights {
    Rights {
        r: word.contains('r'),
        w: word.contains('w'),
        x: word.contains('x'),
    }
}

/// The use of this name.
fn use_named(word: &str) -> Result<Use, Fault<'_>> {
    match word {
        "read" => Ok(Use::Read),
        "write" => Ok(Use::Write),
        "execute" => Ok(Use::Execute),
        _ => Err(Fault::new(Why::Action, word)),
    }
}

/// Bytes: those of a text behind `'`, or of a byte as many as stand behind a `*`.
fn bytes(alloc: Global, word: &str) -> Result<Vec<u8>, Fault<'_>> {
    if let Some(text) = word.strip_prefix('\'') {
        return Ok(Vec::from_slice(alloc, text.as_bytes())?);
    }
    let fault = Fault::new(Why::Number, word);
    let (byte, count) = word.split_once('*').ok_or(fault)?;
    let byte = byte.parse::<u8>().ok().ok_or(fault)?;
    let count = count.parse::<u16>().ok().ok_or(fault)?;
    Ok(vec![in alloc; byte; usize::from(count)]?)
}

/// A range of pages: its address, and how many they are.
fn pages<'a>(at: &'a str, count: &'a str) -> Result<(u64, u32), Fault<'a>>
    ensures aligned { IfOk result (λ range. range.0 % page_size ≡ 0) }
    ensures below { IfOk result (λ range. range.0 + page_size * range.1 ≤ PAGES_END) }
{
    let first = value(at)?;
    let pages = small(count)?;
    if first % 4096 != 0 || first > PAGES_END {
        return Err(Fault::new(Why::Range, at));
    }
    if u64::from(pages) * 4096 > PAGES_END - first {
        return Err(Fault::new(Why::Range, count));
    }
    Ok((first, pages))
}

/// Whether a room counts the pages of a memory.
fn counts(room: &Room, space: &Space<1>) -> bool
    ensures { IsTrue result → page_count space.now.pages ≤ room.now }
{
    room.free() + space.pages() <= 262_144
}

/// Reads as many bytes as these for a use, and compares them.
fn compare(
    alloc: Global,
    space: &mut Space<1>,
    at: u64,
    wanted: &[u8],
    what: Use,
) -> Result<Answer, AllocError> {
    let mut found = vec![in alloc; 0; wanted.len()]?;
    match space.read(at, &mut found, what) {
        Ok(()) if found.as_slice() == wanted => Ok(Answer::Ok),
        Ok(()) => Ok(Answer::Differs),
        Err(BadAddress) => Ok(Answer::Bad),
    }
}

/// Reads a text of at most so many bytes with its zero, and compares it.
fn compare_text(space: &mut Space<1>, at: u64, max: u32, wanted: &[u8]) -> Answer {
    match space.text_at(at, max) {
        Ok(found) => {
            if found.as_slice() == wanted {
                Answer::Ok
            } else {
                Answer::Differs
            }
        }
        Err(TextFault::BadAddress) => Answer::Bad,
        Err(TextFault::TooLong) => Answer::Long,
        Err(TextFault::NoMemory) => Answer::NoMemory,
    }
}

/// An action on the pages of a memory.
fn on_pages<'a>(
    room: &mut Room,
    space: &mut Space<1>,
    words: &[&'a str],
) -> Result<Option<Answer>, Fault<'a>> {
    match words {
        ["map", at, count, letters] => {
            let (at, count) = pages(at, count)?;
            if !counts(room, space) {
                return Ok(None);
            }
            Ok(Some(told_map(space.map(room, at, count, rights(letters)))))
        }
        ["unmap", at, count] => {
            let (at, count) = pages(at, count)?;
            if !counts(room, space) {
                return Ok(None);
            }
            space.unmap(room, at, count);
            Ok(Some(Answer::Ok))
        }
        ["protect", at, count, letters] => {
            let (at, count) = pages(at, count)?;
            match space.protect(at, count, rights(letters)) {
                Ok(()) => Ok(Some(Answer::Ok)),
                Err(BadAddress) => Ok(Some(Answer::Bad)),
            }
        }
        ["any", at, count] => {
            let (at, count) = pages(at, count)?;
            Ok(Some(told(space.has_any(at, count))))
        }
        ["place", from, end, count] => place(space, from, end, count),
        ["pages"] => Ok(Some(Answer::Number(u64::from(space.pages())))),
        ["free"] => Ok(Some(Answer::Number(u64::from(room.free())))),
        _ => Ok(None),
    }
}

/// The lowest place, `no` where there is none.
fn place<'a>(
    space: &Space<1>,
    from: &'a str,
    end: &'a str,
    count: &'a str,
) -> Result<Option<Answer>, Fault<'a>> {
    let (from, _none) = pages(from, "0")?;
    let (end, _none) = pages(end, "0")?;
    if from > end {
        return Ok(None);
    }
    match space.lowest_place(from, end, small(count)?) {
        Some(at) => Ok(Some(Answer::Number(at))),
        None => Ok(Some(Answer::No)),
    }
}

/// An action on the bytes of a memory.
fn on_bytes<'a>(
    alloc: Global,
    space: &mut Space<1>,
    words: &[&'a str],
) -> Result<Option<Answer>, Fault<'a>> {
    match words {
        ["write", at, new] => {
            let new = bytes(alloc, new)?;
            Ok(Some(told_store(space.write(value(at)?, new.as_slice()))))
        }
        ["text", at, max, wanted] => {
            let wanted = bytes(alloc, wanted)?;
            let (at, max) = (value(at)?, small(max)?);
            Ok(Some(compare_text(space, at, max, wanted.as_slice())))
        }
        ["can", what, at, count] => {
            let is_so = space.can(value(at)?, value(count)?, use_named(what)?);
            Ok(Some(told(is_so)))
        }
        ["mark", from, to] => {
            let (from, to) = (value(from)?, value(to)?);
            if from > to {
                return Ok(None);
            }
            space.mark(from, to);
            Ok(Some(Answer::Ok))
        }
        ["marks"] => Ok(Some(told(space.mark_was_read()))),
        [what, at, wanted] => {
            let (at, wanted) = (value(at)?, bytes(alloc, wanted)?);
            let what = use_named(what)?;
            Ok(Some(compare(alloc, space, at, wanted.as_slice(), what)?))
        }
        _ => Ok(None),
    }
}

/// Adds a copy of a memory to others.
fn fork(
    room: &mut Room,
    spaces: &mut Vec<Space<1>>,
    place: usize,
) -> Result<Option<Answer>, AllocError> {
    let Some(space) = spaces.get_mut(place) else {
        return Ok(None);
    };
    if !counts(room, space) {
        return Ok(None);
    }
    match space.fork(room) {
        Ok(copy) => {
            spaces.push(copy)?;
            Ok(Some(Answer::Ok))
        }
        Err(fault) => Ok(Some(told_map(Err(fault)))),
    }
}

/// Memories on one room, one of which is in use.
#[derive(Drop)]
struct Memories {
    alloc: Global,
    room: Room,
    spaces: Vec<Space<1>>,
    place: usize,
}

impl Memories {
    fn act<'a>(&mut self, words: &[&'a str]) -> Result<Option<Answer>, Fault<'a>> {
        match words {
            ["new"] => {
                self.place = self.spaces.len();
                self.spaces.push(Space::new(self.alloc))?;
                return Ok(Some(Answer::Ok));
            }
            ["use", place] => {
                self.place = small(place)? as usize;
                return Ok(Some(Answer::Ok));
            }
            ["fork"] => return Ok(fork(&mut self.room, &mut self.spaces, self.place)?),
            _ => {}
        }
        let Some(space) = self.spaces.get_mut(self.place) else {
            return Ok(None);
        };
        match on_pages(&mut self.room, space, words)? {
            Some(answer) => Ok(Some(answer)),
            None => on_bytes(self.alloc, space, words),
        }
    }
}

/// What of a row of memories differs.
pub fn memory_row(alloc: Global, rest: &str) -> Result<String, Fault<'_>> {
    let mut memories: Memories = Memories {
        alloc,
        room: Room::new(),
        spaces: Vec::new(alloc),
        place: 0,
    };
    memories.spaces.push(Space::new(alloc))?;
    let mut told = String::new(alloc);
    for action in rest.split(';') {
        let (action, wanted) = action.split_once('=').unwrap_or((action, "ok"));
        let wanted = answer_of(wanted.trim())?;
        let words: Vec<&str> = action.split_whitespace().collect(alloc)?;
        let got = memories.act(words.as_slice())?;
        let got = got.ok_or(Fault::new(Why::Action, action))?;
        let (wanted, got) = (wanted.told(), got.told());
        if got != wanted {
            let ((wanted, number), (got, found)) = (wanted, got);
            let action = action.trim();
            write!(
                told,
                "{action}: {wanted} {number} wanted, got {got} {found}; "
            )?;
        }
    }
    Ok(told)
}

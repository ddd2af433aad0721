//! Values as texts and as bytes.
ghost use Rattle.std.specs.Prelude.{◌<◌, IfSome};

use crate::faults::{Fault, Why};
use crate::lines::Line;
use guests::below::Bytes;
use hex::FromHexError;
use std::alloc::Global;

/// How many braces a value may have.
const MOST_BRACES: u32 = 64;

/// How many times a text may be repeated.
const MOST_TIMES: u32 = 65_536;

/// A number of 32 bits.
pub(crate) fn number(line: Line<'_>) -> Result<u32, Fault> {
    match line.text.parse::<u32>() {
        Ok(number) => Ok(number),
        Err(_error) => Err(line.bad(Why::Number)),
    }
}

/// The text where its last braces are done away with, if it has any.
fn innermost(alloc: Global, line: Line<'_>, text: &str) -> Result<Option<String>, Fault> {
    let Some((before, behind)) = text.rsplit_once('{') else {
        return Ok(None);
    };
    let Some((inner, after)) = behind.split_once('}') else {
        return Err(line.bad(Why::Braces));
    };
    let (count, what) = line.with(inner).split();
    let times = number(line.with(count))?;
    if times > MOST_TIMES {
        return Err(line.bad(Why::Number));
    }
    let mut all = String::from_str(alloc, before)?;
    for _time in 0..times {
        all.push_str(what.text)?;
    }
    all.push_str(after)?;
    Ok(Some(all))
}

/// The text of a line where what stands in braces is repeated.
pub(crate) fn repeated(alloc: Global, line: Line<'_>) -> Result<String, Fault> {
    let mut text = String::from_str(alloc, line.text)?;
    for _brace in 0..MOST_BRACES {
        match innermost(alloc, line, text.as_str())? {
            Some(other) => text = other,
            None => return Ok(text),
        }
    }
    Err(line.bad(Why::Braces))
}

/// What the next byte of a text with escapes is.
#[derive(Clone, Copy)]
enum Next {
    Plain,
    /// Behind a backslash.
    Escaped,
    /// The first hex digit, or the second one behind this.
    High,
    Low(u8),
}

/// The number of a hex digit.
fn digit(byte: u8) -> Option<u8>
    ensures { IfSome result (λ digit. digit < 16) }
{
    match byte {
        b'0'..=b'9' => Some(byte - b'0'),
        b'a'..=b'f' => Some(byte - b'a' + 10),
        b'A'..=b'F' => Some(byte - b'A' + 10),
        _ => None,
    }
}

/// What a letter behind a backslash stands for.
fn letter(byte: u8) -> Option<u8> {
    match byte {
        b'n' => Some(b'\n'),
        b'0' => Some(0),
        b'\\' => Some(b'\\'),
        _ => None,
    }
}

/// Takes a byte of a text with escapes, and says what the next one is.
fn take(bytes: &mut Bytes, line: Line<'_>, next: Next, byte: u8) -> Result<Next, Fault> {
    match next {
        Next::Plain if byte == b'\\' => return Ok(Next::Escaped),
        Next::Plain => bytes.append(&[byte])?,
        Next::Escaped if byte == b'x' => return Ok(Next::High),
        Next::Escaped => {
            let plain = letter(byte).ok_or(line.bad(Why::Escape))?;
            bytes.append(&[plain])?;
        }
        Next::High => {
            let high = digit(byte).ok_or(line.bad(Why::Escape))?;
            return Ok(Next::Low(high));
        }
        Next::Low(high) => {
            let low = digit(byte).ok_or(line.bad(Why::Escape))?;
            bytes.append(&[(high << 4) | low])?;
        }
    }
    Ok(Next::Plain)
}

/// The bytes of a text with escapes.
pub(crate) fn unescaped(alloc: Global, line: Line<'_>) -> Result<Bytes, Fault> {
    if !line.text.contains('\\') {
        return Ok(Bytes::copy(alloc, line.text.as_bytes())?);
    }
    let mut bytes = Bytes::new(alloc);
    let mut next = Next::Plain;
    for byte in line.text.bytes() {
        next = take(&mut bytes, line, next, byte)?;
    }
    if !matches!(next, Next::Plain) {
        return Err(line.bad(Why::Escape));
    }
    Ok(bytes)
}

/// The bytes of a value.
pub(crate) fn bytes(alloc: Global, line: Line<'_>) -> Result<Bytes, Fault> {
    let text = repeated(alloc, line)?;
    unescaped(alloc, line.with(text.as_str()))
}

/// The characters that bytes are.
fn characters(line: Line<'_>, bytes: Bytes) -> Result<String, Fault> {
    match String::from_utf8(bytes.into_vec()) {
        Ok(text) => Ok(text),
        Err(_error) => Err(line.bad(Why::Characters)),
    }
}

/// The characters of a value.
pub(crate) fn text(alloc: Global, line: Line<'_>) -> Result<String, Fault> {
    characters(line, bytes(alloc, line)?)
}

/// The words of a value, between blanks; `''` is an empty one.
pub(crate) fn words(alloc: Global, line: Line<'_>) -> Result<Vec<String>, Fault> {
    let text = repeated(alloc, line)?;
    let mut words = Vec::new(alloc);
    for word in text.as_str().split(' ') {
        if word == "''" {
            words.push(String::new(alloc))?;
        } else if !word.is_empty() {
            let word = unescaped(alloc, line.with(word))?;
            words.push(characters(line, word)?)?;
        }
    }
    Ok(words)
}

/// The bytes of hex digits, between which blanks may stand.
pub(crate) fn from_hex(alloc: Global, line: Line<'_>) -> Result<Bytes, Fault> {
    let mut bytes = Bytes::new(alloc);
    for digits in line.text.split(' ') {
        match hex::decode(alloc, digits) {
            Ok(some) => bytes.append(some.as_slice())?,
            Err(FromHexError::OutOfMemory) => return Err(Fault::NoMemory),
            Err(_other) => return Err(line.bad(Why::Hex)),
        }
    }
    Ok(bytes)
}

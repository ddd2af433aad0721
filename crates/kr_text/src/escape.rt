//! Bytes of names and texts, which escapes stand for where they aren't graphic.
ghost use Rattle.std.specs.Prelude.{◌≡◌, ◌<◌, ◌∷◌, length, MatchOption, IfSome, IfOk, option_map, None};
ghost use Rattle.hex.specs.Hex.{hex_digit_value};
ghost use Rattle.kr_text.specs.Fields.{is_plain, byte_of, unescaped, behind_percent};

use kr_tree::below::pr_base::{Bytes, NoMemory};
use std::alloc::Global;

/// Whether a byte stands for itself: a graphic character of ASCII other than `%`.
pub(crate) fn is_plain(byte: u8) -> bool
    ensures { result ≡ is_plain byte }
{
    (0x21..=0x7e).contains(&byte) && byte != b'%'
}

/// The value of a hex digit of either case.
fn hex_digit(digit: u8) -> Option<u8>
    ensures value { result ≡ hex_digit_value digit }
    ensures bound { IfSome result (λ value. value < 16) }
{
    match digit {
        b'A'..=b'F' => Some(digit - b'A' + 10),
        b'a'..=b'f' => Some(digit - b'a' + 10),
        b'0'..=b'9' => Some(digit - b'0'),
        _ => None,
    }
}

/// The byte that two hex digits stand for, which isn't zero.
fn byte_of(high: u8, low: u8) -> Option<u8>
    ensures { result ≡ byte_of high low }
{
    let high = hex_digit(high)?;
    let low = hex_digit(low)?;
    let byte = high * 16 + low;
    if byte == 0 { None } else { Some(byte) }
}

/// The byte that an escape stands for, and what is behind its two digits. The text is that behind a
/// `%`.
#[tactic(auto, using(crate::proofs::EscapeLemmas::no_byte_read))]
fn escaped_byte(text: &[u8]) -> Option<(u8, &[u8])>
    ensures value { MatchOption result (behind_percent text.now ≡ None) (λ p. behind_percent text.now ≡ option_map (λ bytes. p.0 ∷ bytes) (unescaped p.1.now)) }
    ensures shorter { IfSome result (λ p. length p.1.now < length text.now) }
{
    let (high, behind) = text.split_first()?;
    let (low, rest) = behind.split_first()?;
    match byte_of(*high, *low) {
        None => None,
        Some(byte) => Some((byte, rest)),
    }
}

/// The first byte that a text stands for, and what is behind it in the text.
fn first_byte(text: &[u8]) -> Option<(u8, &[u8])>
    requires { 0 < length text.now }
    ensures value { MatchOption result (unescaped text.now ≡ None) (λ p. unescaped text.now ≡ option_map (λ bytes. p.0 ∷ bytes) (unescaped p.1.now)) }
    ensures shorter { IfSome result (λ p. length p.1.now < length text.now) }
{
    let (first, behind) = text.split_first()?;
    if *first == b'%' {
        escaped_byte(behind)
    } else if is_plain(*first) {
        Some((*first, behind))
    } else {
        None
    }
}

/// The bytes that a text stands for; `None` where one of its bytes can't stand there.
pub(crate) fn unescape(alloc: Global, text: &[u8]) -> Result<Option<Bytes>, NoMemory>
    ensures { IfOk result (λ bytes. bytes ≡ unescaped text.now) }
{
    let mut bytes = Vec::new(alloc);
    let mut rest = text;
    while !rest.is_empty() {
        let Some((byte, behind)) = first_byte(rest) else {
            return Ok(None);
        };
        bytes.push(byte)?;
        rest = behind;
    }
    Ok(Some(Bytes::from(bytes)))
}

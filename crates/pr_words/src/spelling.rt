//! The names of the options.
ghost use Rattle.std.specs.Prelude.{◌≡◌, ◌==◌, option_map};
ghost use Rattle.std.specs.List.{position};
ghost use Rattle.pr_words.specs.Spelling.{cut_at, flag_named, short_named, renamed, long_named, without_value, spelling_of, own_value};

use crate::kind::Kind;

/// What one word is.
#[derive(Clone, Copy)]
pub(crate) enum Spelled {
    /// It begins the command.
    Command,
    /// It begins with `-`, and no option has this name.
    Unknown,
    /// An option that has no value.
    Flag(Kind),
    /// An option whose value is the next word.
    Short(Kind),
    /// A long option without the `=` before its value.
    Lacking(Kind),
    /// A long option with its value behind the `=`.
    Long(Kind),
}

fn place_of(bytes: &[u8], c: u8) -> Option<usize>
    ensures { result ≡ position (λ b. b == c) bytes.now }
{
    bytes.iter().position(|byte| *byte == c)
}

/// What stands before the first byte `c`, and behind it.
pub(crate) fn cut_at(bytes: &[u8], c: u8) -> Option<(&[u8], &[u8])>
    ensures { option_map (λ parts. (parts.0.now, parts.1.now)) result ≡ cut_at c bytes.now }
{
    let at = place_of(bytes, c)?;
    Some((&bytes[..at], &bytes[at + 1..]))
}

/// An option that has no value.
fn flag_named(word: &[u8]) -> Option<Kind>
    ensures { result ≡ flag_named word.now }
{
    if word == b"-0".as_slice() || word == b"--root-id".as_slice() {
        Some(Kind::RootId)
    } else if word == b"--native".as_slice() {
        Some(Kind::Native)
    } else if word == b"--calm".as_slice() {
        Some(Kind::Calm)
    } else {
        None
    }
}

/// An option whose value is the next word.
fn short_named(word: &[u8]) -> Option<Kind>
    ensures { result ≡ short_named word.now }
{
    if word == b"-r".as_slice() {
        Some(Kind::Root)
    } else if word == b"-b".as_slice() || word == b"-m".as_slice() {
        Some(Kind::Bind)
    } else if word == b"-w".as_slice() {
        Some(Kind::Directory)
    } else if word == b"-i".as_slice() {
        Some(Kind::ChangeId)
    } else {
        None
    }
}

/// An option that has a short name too.
fn renamed(name: &[u8]) -> Option<Kind>
    ensures { result ≡ renamed name.now }
{
    if name == b"--rootfs".as_slice() {
        Some(Kind::Root)
    } else if name == b"--bind".as_slice() || name == b"--mount".as_slice() {
        Some(Kind::Bind)
    } else if name == b"--pwd".as_slice() || name == b"--cwd".as_slice() {
        Some(Kind::Directory)
    } else if name == b"--change-id".as_slice() {
        Some(Kind::ChangeId)
    } else {
        None
    }
}

/// An option whose value stands behind a `=`.
fn long_named(name: &[u8]) -> Option<Kind>
    ensures { result ≡ long_named name.now }
{
    if name == b"--env".as_slice() {
        Some(Kind::Variable)
    } else if name == b"--turns".as_slice() {
        Some(Kind::Turns)
    } else if name == b"--schedule".as_slice() {
        Some(Kind::Schedule)
    } else if name == b"--loose".as_slice() {
        Some(Kind::Loose)
    } else if name == b"--case".as_slice() {
        Some(Kind::Case)
    } else {
        renamed(name)
    }
}

/// What a word is that begins with `-` and has no `=`.
fn without_value(word: &[u8]) -> Spelled
    ensures { result ≡ without_value word.now }
{
    if let Some(kind) = flag_named(word) {
        Spelled::Flag(kind)
    } else if let Some(kind) = short_named(word) {
        Spelled::Short(kind)
    } else if let Some(kind) = long_named(word) {
        Spelled::Lacking(kind)
    } else {
        Spelled::Unknown
    }
}

/// What a word is.
pub(crate) fn spelling_of(word: &[u8]) -> Spelled
    ensures { result ≡ spelling_of word.now }
{
    if !word.starts_with(b"-") {
        return Spelled::Command;
    }
    let Some((name, _value)) = cut_at(word, b'=') else {
        return without_value(word);
    };
    match long_named(name) {
        Some(kind) => Spelled::Long(kind),
        None => Spelled::Unknown,
    }
}

/// What stands behind the first `=` of a word.
pub(crate) fn own_value(word: &[u8]) -> &[u8]
    ensures { result.now ≡ own_value word.now }
{
    match cut_at(word, b'=') {
        Some((_name, value)) => value,
        None => &[],
    }
}

//! Paths and their components, after path_resolution(7).
ghost use Rattle.std.specs.Prelude.{◌≡◌, ◌≢◌, [], ◌++◌, MatchOption};
ghost use Rattle.std.specs.List.{All};
ghost use Rattle.pr_base.specs.Paths.{slash, parts_of, ends_in_slash, component_of, kind_of, is_walked};
ghost use Rattle.pr_base.specs.Parts.{path_of, rest_of};
ghost use Rattle.pr_base.specs.Pieces.{BeginsName, BeginsSlash};

use crate::limits::PATH_MAX;

/// What a path ends with.
#[derive(Clone, Copy, PartialEq)]
pub enum Last {
    /// A name.
    Name,
    /// `.`.
    Dot,
    /// `..`.
    DotDot,
    /// It has no component.
    Root,
}

/// What a walk along a path is for.
#[derive(Clone, Copy, PartialEq)]
pub enum WalkMode {
    /// Something that is there; a last link is followed.
    Look,
    /// Something that is there; a last link isn't followed.
    LookLink,
    /// An entry, there or free; a last link isn't followed.
    Name,
    /// An entry, there or free, to which a last link leads.
    Open,
}

/// The components of a path, in order: what stands between its slashes, `.` and `..` too.
#[derive(Clone, Copy)]
pub struct Parts<'a> {
    path: &'a [u8],
}

impl<'a> Parts<'a> {
    ghost use Rattle.pr_base.specs.Paths.{is_absolute, has_slash, last_kind};

    /// Whether the path begins with a slash.
    pub fn absolute(&self) -> bool
        ensures { result ≡ is_absolute (path_of self.now) }
    {
        match self.path.first() {
            None => false,
            Some(byte) => *byte == b'/',
        }
    }

    /// Whether the path has a component and ends with a slash.
    pub fn slash(&self) -> bool
        ensures { result ≡ has_slash (path_of self.now) }
    {
        skip_slashes(self.path).is_some() && ends_slashed(self.path)
    }

    /// What the path ends with.
    pub fn last(&self) -> Last
        ensures { result ≡ last_kind (path_of self.now) }
    {
        let mut last = Last::Root;
        for part in *self {
            last = kind(part);
        }
        last
    }
}

impl<'a> IntoIterator for Parts<'a> {
    type Item = &'a [u8];

    type IntoIter = PartsLeft<'a>;

    ghost into_iter_gives = { λ parts left. rest_of left ≡ path_of parts };

    fn into_iter(self) -> PartsLeft<'a> {
        PartsLeft { rest: self.path }
    }
}

/// The components of a path that weren't read yet.
#[derive(Drop)]
pub struct PartsLeft<'a> {
    rest: &'a [u8],
}

impl<'a> PartsLeft<'a> {
    /// The bytes of the path that weren't read yet.
    pub fn rest(&self) -> &'a [u8]
        ensures { result.now ≡ rest_of self.now }
    {
        self.rest
    }
}

impl<'a> Iterator for PartsLeft<'a> {
    ghost use Rattle.pr_base.specs.Parts.{parts_left};
    ghost use Rattle.std.specs.Iterator.{YieldsFirstRef, item_count};

    type Item = &'a [u8];

    ghost next_gives = { YieldsFirstRef parts_left };

    ghost remaining = { item_count parts_left };

    fn next(&mut self) -> Option<&'a [u8]> {
        let named = skip_slashes(self.rest)?;
        let (name, rest) = split_at_slash(named);
        self.rest = rest;
        Some(name)
    }
}

/// The components of a path, which may be empty.
pub fn components(path: &[u8]) -> Parts<'_>
    ensures { path_of result ≡ path.now }
{
    Parts { path }
}

/// Whether a path is walked: an empty one isn't, nor one that is too long.
pub fn is_walked(path: &[u8]) -> bool
    ensures { result ≡ is_walked path.now }
{
    !path.is_empty() && path.len() < PATH_MAX
}

/// What a path begins with after its leading slashes; `None` where nothing is left.
fn skip_slashes(path: &[u8]) -> Option<&[u8]>
    ensures { MatchOption result (parts_of path.now ≡ []) (λ named. (parts_of named.now ≡ parts_of path.now) × BeginsName named.now) }
{
    for (at, byte) in path.iter().enumerate() {
        if *byte != b'/' {
            return Some(&path[at..]);
        }
    }
    None
}

/// A path up to its first slash, and from there on.
fn split_at_slash(path: &[u8]) -> (&[u8], &[u8])
    ensures whole { path.now ≡ result.0.now ++ result.1.now }
    ensures name { All (λ b. b ≢ slash) result.0.now }
    ensures rest { BeginsSlash result.1.now }
{
    for (at, byte) in path.iter().enumerate() {
        if *byte == b'/' {
            return (&path[..at], &path[at..]);
        }
    }
    (path, &[])
}

/// Whether the last byte is a slash.
fn ends_slashed(path: &[u8]) -> bool
    ensures { result ≡ ends_in_slash path.now }
{
    match path.last() {
        None => false,
        Some(byte) => *byte == b'/',
    }
}

/// What a component is.
fn kind(part: &[u8]) -> Last
    ensures { result ≡ kind_of (component_of part.now) }
{
    match part {
        b"." => Last::Dot,
        b".." => Last::DotDot,
        _ => Last::Name,
    }
}

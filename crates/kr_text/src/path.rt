//! Paths and texts of a listing.
ghost use Rattle.std.specs.Prelude.{◌≡◌, ◌≢◌, ◌||◌, [], true, reverse};
ghost use Rattle.std.specs.Bool.{MatchBool};
ghost use Rattle.std.specs.List.{list_all, slice_split};
ghost use Rattle.kr_tree.specs.pr_base.Paths.{is_slash, parts_of};
ghost use Rattle.kr_tree.specs.Names.{is_name};
ghost use Rattle.kr_text.specs.Fields.{is_path, path_of, text_of, bytes_of};
ghost use Rattle.kr_text.specs.Answers.{IsRead};

use crate::escape::unescape;
use crate::fault::{LineFault, TreeWhy};
use crate::pieces::Pieces;
use hex::FromHexError;
use kr_tree::below::pr_base::limits::PATH_MAX;
use kr_tree::below::pr_base::{Bytes, components};
use kr_tree::is_name;
use std::alloc::Global;
use std::marker::Model;

/// The most bytes of a path, and of a link's text.
const PATH_LIMIT: usize = PATH_MAX - 1;

/// A path from the root, which contracts see as the list of its names, the deepest first.
#[derive(Drop)]
pub(crate) struct Path {
    bytes: Bytes,
}

impl Model for Path {
    ghost use Rattle.std.specs.Prelude.{◌≡◌, ℕ, true, List, reverse};
    ghost use Rattle.kr_tree.specs.pr_base.Paths.{parts_of};
    ghost use Rattle.kr_text.specs.Fields.{is_path};

    ghost Value = { List (List ℕ) };

    ghost view = { λ p. reverse (parts_of p.bytes) };

    ghost invariant = { λ p. is_path p.bytes ≡ true };
}

/// Whether each piece between slashes is a name.
fn are_names(names: &[u8]) -> bool
    ensures { result ≡ list_all is_name (slice_split is_slash names.now) }
{
    let mut pieces = Pieces::of(names, b'/');
    while let Some(name) = pieces.next() {
        if !is_name(name) {
            return false;
        }
    }
    true
}

/// Whether some bytes are `/`, or names with a slash before each.
fn is_path(bytes: &[u8]) -> bool
    ensures { result ≡ is_path bytes.now }
{
    match bytes {
        [] => false,
        [first, names @ ..] => {
            *first == b'/' && bytes.len() <= PATH_LIMIT && (names.is_empty() || are_names(names))
        }
    }
}

impl Path {
    /// The path's own bytes.
    #[tactic(auto, using(crate::proofs::NameLemmas::path_names))]
    pub(crate) fn bytes(&self) -> &[u8]
        ensures text { reverse (parts_of result.now) ≡ self.now }
        ensures names { list_all is_name (parts_of result.now) ≡ true }
    {
        self.bytes.as_slice()
    }

    /// Whether it is `/`.
    #[tactic(auto, using(crate::proofs::NameLemmas::none_reversed, crate::proofs::NameLemmas::some_reversed))]
    pub(crate) fn is_root(&self) -> bool
        ensures { MatchBool result (self.now ≡ []) (self.now ≢ []) }
    {
        components(self.bytes()).into_iter().next().is_none()
    }

    /// The path of a field.
    pub(crate) fn read(alloc: Global, field: &[u8]) -> Result<Path, LineFault>
        ensures { IsRead (path_of field.now) result }
    {
        let Some(bytes) = unescape(alloc, field)? else {
            return Err(LineFault::Bad(TreeWhy::Name));
        };
        if is_path(bytes.as_slice()) {
            Ok(Path { bytes })
        } else {
            Err(LineFault::Bad(TreeWhy::Name))
        }
    }
}

/// The text of a link.
pub(crate) fn text_of(alloc: Global, field: &[u8]) -> Result<Bytes, LineFault>
    ensures { IsRead (text_of field.now) result }
{
    let Some(text) = unescape(alloc, field)? else {
        return Err(LineFault::Bad(TreeWhy::Name));
    };
    if 1 <= text.len() && text.len() <= PATH_LIMIT {
        Ok(text)
    } else {
        Err(LineFault::Bad(TreeWhy::Name))
    }
}

/// The bytes of a file.
pub(crate) fn bytes_of(alloc: Global, field: &[u8]) -> Result<Bytes, LineFault>
    ensures { IsRead (bytes_of field.now) result }
{
    if field == b"-".as_slice() {
        return Ok(Bytes::new(alloc));
    }
    if field.is_empty() {
        return Err(LineFault::Bad(TreeWhy::Form));
    }
    match hex::decode(alloc, field) {
        Ok(bytes) => Ok(Bytes::from(bytes)),
        Err(FromHexError::OutOfMemory) => Err(LineFault::NoMemory),
        Err(_other) => Err(LineFault::Bad(TreeWhy::Form)),
    }
}

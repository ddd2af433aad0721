//! Texts in bytes: what stands below the root, and what stands below another text.
ghost use Rattle.std.specs.Prelude.{◌≡◌, ◌++◌, ◌↔◌, IfOk, IsTrue};
ghost use Rattle.std.specs.Option.{option_copied, option_map};
ghost use Rattle.pr_base.specs.Paths.{below_root, text_of};
ghost use Rattle.pr_base.specs.Pieces.{BeginsSlash};
ghost use Rattle.pr_base.specs.Texts.{Text, names_below};
ghost use Rattle.pt_bind.specs.Binding.{IsWritten, names_of};

use pr_base::{Bytes, NoMemory};
use std::alloc::Global;

/// The bytes of a text below the root: all of them, or none where it is the root.
pub(crate) fn below_root(text: &[u8]) -> &[u8]
    requires { IsWritten text.now }
    ensures { result.now ≡ below_root (names_of text.now) }
{
    if text.len() == 1 {
        return &[];
    }
    text
}

/// The text of what stands below another one; `rest` is what follows its bytes.
pub(crate) fn joined(alloc: Global, top: &[u8], rest: &[u8]) -> Result<Bytes, NoMemory>
    requires { IsWritten top.now }
    ensures { IfOk result (λ text. (names : Text) → rest.now ≡ below_root names → text ≡ text_of (names ++ names_of top.now)) }
{
    if rest.is_empty() {
        let same = Bytes::copy(alloc, top)?;
        return Ok(same);
    }
    let mut text = Bytes::copy(alloc, below_root(top))?;
    text.append(rest)?;
    Ok(text)
}

/// What follows the bytes of a text in those of another that stands at it or below it; `None` exactly where that one doesn't.
pub fn rest_below<'a>(top: &[u8], text: &'a [u8]) -> Option<&'a [u8]>
    requires top { IsWritten top.now }
    requires text { IsWritten text.now }
    ensures { option_copied result ≡ option_map below_root (names_below (names_of top.now) (names_of text.now)) }
{
    let Some(rest) = below_root(text).strip_prefix(below_root(top)) else {
        return None;
    };
    if !begins_slash(rest) {
        return None;
    }
    Some(rest)
}

/// Whether no bytes are there, or the first one is a slash.
fn begins_slash(rest: &[u8]) -> bool
    ensures { IsTrue result ↔ BeginsSlash rest.now }
{
    match rest.first() {
        None => true,
        Some(byte) => *byte == b'/',
    }
}

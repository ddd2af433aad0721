//! Texts of names, in bytes.
ghost use Rattle.std.specs.Prelude.{◌≡◌, ◌≢◌, ◌≤◌, ◌<◌, ◌++◌, ◌∷◌, ℕ, List, length, drop, IfOk, OnOk};
ghost use Rattle.std.specs.List.{All};
ghost use Rattle.pt_bind.specs.pr_base.Paths.{below_root, slash, IsPart};
ghost use Rattle.pt_bind.specs.Binding.{IsWritten, names_of};
ghost use Rattle.kr_mounts.specs.Texts.{IsBelow, last_name};

use pt_bind::below::pr_base::{Bytes, NoMemory};
use std::alloc::Global;

/// The bytes of a text below the root: none for the root.
fn below_root(text: &[u8]) -> &[u8]
    requires { IsWritten text.now }
    ensures { result.now ≡ below_root (names_of text.now) }
{
    if text.len() == 1 {
        return &[];
    }
    text
}

/// The text of a name in a directory.
pub(crate) fn entry_text(alloc: Global, directory: &[u8], name: &[u8]) -> Result<Bytes, NoMemory>
    requires directory { IsWritten directory.now }
    requires name { IsPart name.now }
    ensures names { IfOk result (λ text. names_of text ≡ name.now ∷ names_of directory.now) }
    ensures written { IfOk result IsWritten }
{
    let mut bytes = Bytes::copy(alloc, below_root(directory))?;
    push_name(&mut bytes, name)?;
    Ok(bytes)
}

/// Puts a slash and a name behind bytes.
pub(crate) fn push_name(bytes: &mut Bytes, name: &[u8]) -> Result<(), NoMemory>
    ensures { OnOk result (bytes.new ≡ bytes.old ++ slash ∷ name.now) }
{
    bytes.append(b"/")?;
    bytes.append(name)
}

/// Where the last slash stands; 0 where there is none.
fn last_slash(bytes: &[u8]) -> usize
    ensures within { result ≤ length bytes.now }
    ensures inside { 0 < length bytes.now → result < length bytes.now }
    ensures last { (front name : List ℕ) → bytes.now ≡ front ++ slash ∷ name → All (λ b. b ≢ slash) name → result ≡ length front }
{
    let mut end = bytes.len();
    while 0 < end {
        end -= 1;
        if bytes[end] == b'/' {
            return end;
        }
    }
    0
}

/// A text below the root without its last name; the root stays.
pub(crate) fn without_last(bytes: Bytes) -> Bytes
    requires { IsBelow bytes }
    ensures names { names_of result ≡ drop 1 (names_of bytes) }
    ensures below { IsBelow result }
{
    let mut items = bytes.into_vec();
    let end = last_slash(items.as_slice());
    items.truncate(end);
    Bytes::from(items)
}

/// The last name of a text; empty for the root.
pub(crate) fn last_name(text: &[u8]) -> &[u8]
    requires { IsWritten text.now }
    ensures { result.now ≡ last_name (names_of text.now) }
{
    let end = last_slash(text);
    if text.is_empty() {
        text
    } else {
        &text[end + 1..]
    }
}

//! Guest texts that grow and are cut.
ghost use Rattle.std.specs.Prelude.{◌≡◌, ◌≢◌, ℕ, ◌≤◌, List, [], ◌∷◌, ◌++◌, length, IfOk, MatchOption};
ghost use Rattle.std.specs.List.{All};
ghost use Rattle.pt_bind.specs.pr_base.Paths.{slash, IsPart, below_root, text_of};
ghost use Rattle.pt_bind.specs.Binding.{IsWritten, names_of};
ghost use Rattle.pt_canon.specs.ProcessLinks.{above};
ghost use Rattle.pt_canon.specs.Kept.{IsBelowRoot, IsParted};

use pt_bind::below::pr_base::NoMemory;
use std::alloc::Global;
use std::marker::Model;

/// A guest text, which contracts see as its names, the deepest first. One buffer holds the bytes below the root.
#[derive(Drop)]
pub(crate) struct Guest {
    bytes: Vec<u8>,
}

impl Model for Guest {
    ghost use Rattle.std.specs.Prelude.{List, ℕ};
    ghost use Rattle.pt_bind.specs.Binding.{names_of};
    ghost use Rattle.pt_canon.specs.Kept.{IsBelowRoot};

    ghost Value = { List (List ℕ) };

    ghost view = { λ g. names_of g.bytes.items };

    ghost invariant = { λ g. IsBelowRoot g.bytes.items };
}

impl Guest {
    /// The root. It takes no memory yet.
    pub(crate) fn root(alloc: Global) -> Guest
        ensures { result ≡ [] }
    {
        Guest {
            bytes: Vec::new(alloc),
        }
    }

    pub(crate) fn of(alloc: Global, text: &[u8]) -> Result<Guest, NoMemory>
        requires { IsWritten text.now }
        ensures { IfOk result (λ guest. guest ≡ names_of text.now) }
    {
        Ok(Guest {
            bytes: below_root(text).to_vec(alloc)?,
        })
    }

    pub(crate) fn text(&self) -> &[u8]
        ensures text { result.now ≡ text_of self.now }
        ensures written { IsWritten result.now }
        ensures names { names_of result.now ≡ self.now }
    {
        if self.bytes.is_empty() {
            b"/".as_slice()
        } else {
            self.bytes.as_slice()
        }
    }

    /// The text above; the root's is the root.
    pub(crate) fn above(self) -> Guest
        ensures { result ≡ above self }
    {
        let mut bytes = self.bytes;
        let end = last_slash(bytes.as_slice());
        bytes.truncate(end);
        Guest { bytes }
    }

    /// The text of a name below this one.
    pub(crate) fn child(self, name: &[u8]) -> Result<Guest, NoMemory>
        requires { IsPart name.now }
        ensures { IfOk result (λ child. child ≡ name.now ∷ self) }
    {
        let mut bytes = self.bytes;
        bytes.push(b'/')?;
        bytes.extend_from_slice(name)?;
        Ok(Guest { bytes })
    }
}

/// The bytes of a text below the root: all of them, or none where it is the root.
pub(crate) fn below_root(text: &[u8]) -> &[u8]
    requires { IsWritten text.now }
    ensures bytes { result.now ≡ below_root (names_of text.now) }
    ensures names { names_of result.now ≡ names_of text.now }
    ensures below { IsBelowRoot result.now }
{
    if text.len() == 1 {
        return &[];
    }
    text
}

/// The last name of a text and the text above it, by the bytes below the root; `None` exactly for the root.
pub(crate) fn parted(bytes: &[u8]) -> Option<(&[u8], &[u8])>
    requires { IsBelowRoot bytes.now }
    ensures { MatchOption result (names_of bytes.now ≡ []) (λ parted. IsParted bytes.now parted.0.now parted.1.now) }
{
    if bytes.is_empty() {
        return None;
    }
    let end = last_slash(bytes);
    Some((&bytes[..end], &bytes[end + 1..]))
}

/// Where the last slash stands; 0 where there is none.
fn last_slash(bytes: &[u8]) -> usize
    ensures within { result ≤ length bytes.now }
    ensures last { (front name : List ℕ) → bytes.now ≡ front ++ slash ∷ name → All (λ b. b ≢ slash) name → result ≡ length front }
{
    let mut end = bytes.len();
    while 0 < end {
        end -= 1;
        if bytes[end] == b'/' {
            return end;
        }
    }
    0
}

//! Host names, found from their end.
ghost use Rattle.std.specs.Prelude.{◌≡◌, OnOk, IfOk, ℕ, List, ◌++◌, ◌∷◌, reverse};
ghost use Rattle.kr_inode.specs.pr_base.Paths.{slash, below_root, text_of};

use kr_inode::below::pr_base::{Bytes, NoMemory};

/// Adds a slash and a name at the end of bytes that are read from their end.
pub(crate) fn append_backward(backward: &mut Vec<u8>, name: &[u8]) -> Result<(), NoMemory>
    ensures { OnOk result (backward.new.items ≡ backward.old.items ++ reverse (slash ∷ name.now)) }
{
    for byte in name.iter().rev() {
        backward.push(*byte)?;
    }
    backward.push(b'/')?;
    Ok(())
}

/// A text from its bytes from their end, without the slash that stands for the root.
pub(crate) fn from_end(mut backward: Vec<u8>) -> Result<Bytes, NoMemory>
    ensures { IfOk result (λ whole. (text : List (List ℕ)) → backward.items ≡ reverse (below_root text) → whole ≡ text_of text) }
{
    if backward.is_empty() {
        backward.push(b'/')?;
    } else {
        backward.as_mut_slice().reverse();
    }
    Ok(Bytes::from(backward))
}

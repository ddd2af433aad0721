//! Texts that tests hand to calls.
ghost use Rattle.std.specs.Prelude.{IsTrue, IfOk};
ghost use Rattle.pt_results.specs.pr_base.Paths.{IsPart};
ghost use Rattle.pt_results.specs.pt_bind.Binding.{IsWritten};

use pt_results::below::{Bytes, NoMemory, components};
use std::alloc::Global;

/// Whether bytes are a name between slashes.
fn is_part(name: &[u8]) -> bool
    ensures { IsTrue result → IsPart name.now }
{
    !name.is_empty() && !name.contains(&b'/') && name != b".".as_slice() && name != b"..".as_slice()
}

/// Whether bytes are those of a text.
pub fn is_text(alloc: Global, bytes: &[u8]) -> Result<bool, NoMemory>
    ensures { IfOk result (λ is. IsTrue is → IsWritten bytes.now) }
{
    let mut whole = Bytes::new(alloc);
    for part in components(bytes) {
        if !is_part(part) {
            return Ok(false);
        }
        whole.append(b"/")?;
        whole.append(part)?;
    }
    if whole.is_empty() {
        whole.append(b"/")?;
    }
    Ok(whole.as_slice() == bytes)
}

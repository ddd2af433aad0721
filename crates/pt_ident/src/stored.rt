//! Groups as they stand in the memory of a process: four bytes each, the lowest first.
ghost use Rattle.std.specs.Prelude.{◌≡◌, IfOk};
ghost use Rattle.pt_ident.specs.Identity.{number_bytes, numbers_in};

use kr_inode::below::pr_base::{Bytes, NoMemory};
use std::alloc::Global;

/// The bytes of groups.
pub fn group_bytes(alloc: Global, groups: &[u32]) -> Result<Bytes, NoMemory>
    ensures { IfOk result (λ bytes. bytes ≡ number_bytes groups.now) }
{
    let mut bytes = Bytes::new(alloc);
    for group in groups {
        bytes.append(&group.to_le_bytes())?;
    }
    Ok(bytes)
}

/// The groups of bytes.
pub fn groups_in(alloc: Global, bytes: &[u8]) -> Result<Vec<u32>, NoMemory>
    ensures { IfOk result (λ groups. groups.items ≡ numbers_in bytes.now) }
{
    let mut groups = Vec::new(alloc);
    let mut left = bytes;
    while let [a, b, c, d, rest @ ..] = left {
        groups.push(u32::from_le_bytes([*a, *b, *c, *d]))?;
        left = rest;
    }
    Ok(groups)
}

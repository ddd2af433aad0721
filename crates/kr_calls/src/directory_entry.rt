//! The structure that getdents64(2) writes.
ghost use Rattle.std.specs.Prelude.{◌≡◌, ◌≤◌, length, IfOk};
ghost use Rattle.kr_calls.specs.DirectoryEntries.{entry_bytes};

use rv_mem::below::pr_base::{Bytes, NoMemory};
use std::alloc::Global;

/// The bytes of an entry before its name.
const HEAD_SIZE: usize = 19;

/// The structure `linux_dirent64` of an entry: its inode number, the place behind it, its kind (4 directory, 8 file,
/// 10 link), and its name of at most 255 bytes with zeros behind it, at least one, to a multiple of 8 bytes.
pub fn dirent_bytes(
    alloc: Global,
    ino: u64,
    off: u64,
    kind: u8,
    name: &[u8],
) -> Result<Bytes, NoMemory>
    requires { length name.now ≤ 255 }
    ensures { IfOk result (λ bytes. bytes ≡ entry_bytes ino off kind name.now) }
{
    let record_length = (HEAD_SIZE + name.len() + 1).div_ceil(8) * 8;
    let mut bytes = Vec::with_capacity(alloc, record_length)?;
    bytes.extend_from_slice(&ino.to_le_bytes())?;
    bytes.extend_from_slice(&off.to_le_bytes())?;
    bytes.extend_from_slice(&(record_length as u16).to_le_bytes())?;
    bytes.push(kind)?;
    bytes.extend_from_slice(name)?;
    bytes.resize(record_length, 0)?;
    Ok(Bytes::from(bytes))
}

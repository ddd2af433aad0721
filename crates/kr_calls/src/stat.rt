//! The structure that stat(2) writes.
ghost use Rattle.std.specs.Prelude.{◌≡◌, ◌+◌, ◌≤◌, length};
ghost use Rattle.std.proofs.Math.Seq.{sets};
ghost use Rattle.kr_calls.specs.Stats.{stat_layout};

/// What stat(2) tells of a file. Sizes are in bytes, `blocks` counts 512 bytes each.
#[derive(Clone, Copy)]
pub struct Stat {
    pub dev: u64,
    pub ino: u64,
    pub mode: u32,
    pub nlink: u32,
    pub uid: u32,
    pub gid: u32,
    pub rdev: u64,
    pub size: u64,
    pub blksize: u32,
    pub blocks: u64,
}

/// The structure `stat` with these fields, each in little-endian order at its place, and zeros elsewhere.
pub fn stat_bytes(s: &Stat) -> [u8; 128]
    ensures { result ≡ stat_layout s.now }
{
    let mut bytes = [0; 128];
    lay(&mut bytes, 0, &s.dev.to_le_bytes());
    lay(&mut bytes, 8, &s.ino.to_le_bytes());
    lay(&mut bytes, 16, &s.mode.to_le_bytes());
    lay(&mut bytes, 20, &s.nlink.to_le_bytes());
    lay(&mut bytes, 24, &s.uid.to_le_bytes());
    lay(&mut bytes, 28, &s.gid.to_le_bytes());
    lay(&mut bytes, 32, &s.rdev.to_le_bytes());
    lay(&mut bytes, 48, &s.size.to_le_bytes());
    lay(&mut bytes, 56, &s.blksize.to_le_bytes());
    lay(&mut bytes, 64, &s.blocks.to_le_bytes());
    bytes
}

/// Lays a field over the bytes at a place.
fn lay(bytes: &mut [u8], at: usize, field: &[u8])
    requires { at + length field.now ≤ length bytes.old }
    ensures { bytes.new ≡ sets bytes.old at field.now }
{
    bytes[at..at + field.len()].copy_from_slice(field);
}

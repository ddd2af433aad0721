//! Little-endian fields of byte strings.
ghost use Rattle.pr_base.specs.Fields.{IsField};

use byteorder::{ByteOrder, LittleEndian};

/// The little-endian number of the two bytes from `at` on, `None` where they aren't all there.
pub fn field_u16(b: &[u8], at: usize) -> Option<u16>
    ensures { IsField 2 b.now at result }
{
    let field = b.get(at..)?.get(..2)?;
    Some(LittleEndian::read_u16(field))
}

/// The little-endian number of the four bytes from `at` on, `None` where they aren't all there.
pub fn field_u32(b: &[u8], at: usize) -> Option<u32>
    ensures { IsField 4 b.now at result }
{
    let field = b.get(at..)?.get(..4)?;
    Some(LittleEndian::read_u32(field))
}

/// The little-endian number of the eight bytes from `at` on, `None` where they aren't all there.
pub fn field_u64(b: &[u8], at: usize) -> Option<u64>
    ensures { IsField 8 b.now at result }
{
    let field = b.get(at..)?.get(..8)?;
    Some(LittleEndian::read_u64(field))
}

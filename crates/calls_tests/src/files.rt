//! What calls on a pipe answer with ample memory. All of it was worked out by hand.

use crate::guest::Guest;
use kr_ops::below::{Moved, NoMemory, Wrote};
use std::test::Fail;

/// Whether a write took as many bytes.
fn took(answer: Option<Result<Wrote, NoMemory>>, wanted: u32) -> bool {
    matches!(answer, Some(Ok(Wrote::Took(count))) if count == wanted)
}

/// Whether these bytes were read.
fn is_read(answer: Option<Result<Moved, NoMemory>>, bytes: &[u8]) -> bool {
    match answer {
        Some(Ok(Moved::Bytes(moved))) => moved.as_slice() == bytes,
        _ => false,
    }
}

#[test]
fn a_pipe_holds_65536_bytes(rt: HostRuntime) -> Result<(), Fail> {
    let mut guest = Guest::new(rt.alloc());
    assert!(rt; matches!(guest.pipe(), Ok((0, 1))));
    assert!(rt; took(guest.write(1, b"abc"), 3));
    // A read takes no more memory than there are bytes.
    let taken = match guest.read(1, 0x7FFF_F000) {
        Some(Ok(Moved::Bytes(moved))) => moved.into_vec(),
        _ => Vec::new(rt.alloc()),
    };
    assert!(rt; taken.as_slice() == b"abc".as_slice() && taken.capacity() == 3);
    // Sixteen pieces fill it, each of bytes of one value.
    for value in 1..17 {
        assert!(rt; took(guest.write(1, &[value; 4096]), 4096));
    }
    assert!(rt; matches!(guest.write(1, b"x"), Some(Ok(Wrote::NotReady))));
    assert!(rt; is_read(guest.read(1, 4095), &[1; 4095]));
    // What there is room for is written, across the end of what was held.
    assert!(rt; took(guest.write(1, &[17; 4096]), 4095));
    assert!(rt; matches!(guest.write(1, b"x"), Some(Ok(Wrote::NotReady))));
    assert!(rt; is_read(guest.read(1, 1), &[1]));
    for value in 2..17 {
        assert!(rt; is_read(guest.read(1, 4096), &[value; 4096]));
    }
    assert!(rt; is_read(guest.read(1, 65536), &[17; 4095]));
    assert!(rt; matches!(guest.read(1, 1), Some(Ok(Moved::NotReady))));
    Ok(())
}

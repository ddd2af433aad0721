//! Bytes with ample memory, paths, and numbers that were worked out by hand.

use pr_io::below::{Bytes, Errno, Last, Texts, bits, components, field_u16, field_u32, field_u64};
use std::test::Fail;

#[test]
fn bytes_and_texts_are_kept_in_order(rt: HostRuntime) -> Result<(), Fail> {
    let mut bytes = Bytes::copy(rt.alloc(), b"ab")?;
    bytes.append(b"c")?;
    assert!(rt; bytes.as_slice() == b"abc".as_slice());
    let mut texts = Texts::new(rt.alloc());
    texts.push(Bytes::copy(rt.alloc(), b"one")?)?;
    texts.push(Bytes::new(rt.alloc()))?;
    assert!(rt; texts.len() == 2);
    assert!(rt; texts.at(0) == Some(b"one".as_slice()));
    assert!(rt; texts.at(1) == Some(b"".as_slice()));
    assert!(rt; texts.at(2).is_none());
    Ok(())
}

#[test]
fn a_path_is_parted_at_its_slashes(rt: HostRuntime) {
    let path = components(b"/a//./b/");
    assert!(rt; path.absolute());
    assert!(rt; path.slash());
    assert!(rt; matches!(path.last(), Last::Name));
    let mut left = path.into_iter();
    assert!(rt; left.next() == Some(b"a".as_slice()));
    assert!(rt; left.next() == Some(b".".as_slice()));
    assert!(rt; left.rest() == b"/b/".as_slice());
    assert!(rt; left.next() == Some(b"b".as_slice()));
    assert!(rt; left.next().is_none());
    assert!(rt; matches!(components(b"/").last(), Last::Root));
    assert!(rt; !components(b"/").slash());
    assert!(rt; matches!(components(b"a/..").last(), Last::DotDot));
    assert!(rt; components(b"").into_iter().next().is_none());
}

// The numbers of errors are those of the header asm-generic/errno.h of Linux. The word is
// 1010 0101 1100 0011 0000 1111 0110 1001 in binary.
#[test]
fn errors_bits_and_fields_have_their_numbers(rt: HostRuntime) {
    let numbers = [
        (Errno::EPERM, 1),
        (Errno::ENOENT, 2),
        (Errno::ENOEXEC, 8),
        (Errno::EBADF, 9),
        (Errno::EFAULT, 14),
        (Errno::EPIPE, 32),
        (Errno::ENAMETOOLONG, 36),
        (Errno::ENOSYS, 38),
        (Errno::ELOOP, 40),
    ];
    for (errno, number) in numbers {
        assert!(rt; errno.number() == number);
    }
    let word = 0xA5C3_0F69;
    assert!(rt; bits::<31, 0>(word) == 0xA5C3_0F69);
    assert!(rt; bits::<31, 31>(word) == 1);
    assert!(rt; bits::<0, 0>(word) == 1);
    assert!(rt; bits::<14, 12>(word) == 0b000);
    assert!(rt; bits::<11, 8>(word) == 0b1111);
    assert!(rt; bits::<31, 20>(word) == 0xA5C);
    let bytes = [0x11, 0x22, 0x33, 0x44, 0x55, 0x66, 0x77, 0x88, 0x99];
    assert!(rt; field_u16(&bytes, 1) == Some(0x3322));
    assert!(rt; field_u32(&bytes, 1) == Some(0x5544_3322));
    assert!(rt; field_u64(&bytes, 1) == Some(0x9988_7766_5544_3322));
    assert!(rt; field_u16(&bytes, 8).is_none());
    assert!(rt; field_u32(&bytes, 6).is_none());
    assert!(rt; field_u64(&bytes, 2).is_none());
    assert!(rt; field_u16(&bytes, usize::MAX).is_none());
}

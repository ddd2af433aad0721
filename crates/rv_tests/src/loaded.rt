use elf_load::below::check;
use elf_load::below::pr_base::{Bytes, Texts};
use elf_load::below::rv_mem::{Room, Use};
use elf_load::{Image, LoadFault, load};
use guests::HELLO;
use std::alloc::Global;
use std::process::Abort;
use std::test::Fail;

/// A program header to be loaded: its rights, its offset, its address, and its sizes in the file and
/// in memory.
#[derive(Clone, Copy)]
struct Part {
    flags: u8,
    offset: u16,
    address: u64,
    file: u16,
    memory: u64,
}

fn put(file: &mut [u8], at: usize, bytes: &[u8]) {
    for (place, byte) in file.iter_mut().skip(at).zip(bytes) {
        *place = *byte;
    }
}

/// A file of two pages with the ELF header of the hello file and two such program headers. From 0x800
/// on each byte is its place modulo 256, but not 0.
fn with_parts(parts: [Part; 2]) -> [u8; 8192] {
    let mut file = [0; 8192];
    for (at, byte) in file.iter_mut().enumerate().skip(0x800) {
        *byte = (at % 255) as u8 | 1;
    }
    put(&mut file, 0, &HELLO[..64]);
    put(&mut file, 56, &[2]);
    let mut at = 64usize;
    for part in parts {
        put(&mut file, at, &[1, 0, 0, 0, part.flags]);
        put(&mut file, at.wrapping_add(8), &part.offset.to_le_bytes());
        put(&mut file, at.wrapping_add(16), &part.address.to_le_bytes());
        put(&mut file, at.wrapping_add(32), &part.file.to_le_bytes());
        put(&mut file, at.wrapping_add(40), &part.memory.to_le_bytes());
        at = at.wrapping_add(56);
    }
    file
}

fn texts(alloc: Global, list: &[&str]) -> Result<Texts, Fail> {
    let mut texts = Texts::new(alloc);
    for text in list {
        texts.push(Bytes::copy(alloc, text.as_bytes())?)?;
    }
    Ok(texts)
}

/// Loads a file that is accepted, for the user and group 1000 and 100.
fn started<R: Abort + AllocGlobal>(
    rt: &R,
    room: &mut Room,
    file: &[u8],
    args: &Texts,
    env: &Texts,
) -> Result<Image<0>, LoadFault> {
    let ids = [1000, 1001, 100, 101];
    match check(file) {
        Ok(plan) => load(rt.alloc(), room, file, &plan, args, env, ids),
        Err(_fault) => panic!(rt; "not accepted"),
    }
}

/// The same of one that can be loaded.
fn loaded<R: Abort + AllocGlobal>(
    rt: &R,
    room: &mut Room,
    file: &[u8],
    args: &Texts,
    env: &Texts,
) -> Image<0> {
    started(rt, room, file, args, env).ok().expect(rt, "loaded")
}

/// The word at an address.
fn word(image: &mut Image<0>, at: u64) -> Option<u64> {
    let mut bytes = [0; 8];
    image.mem.read(at, &mut bytes, Use::Read).ok()?;
    Some(u64::from_le_bytes(bytes))
}

/// The byte at an address.
fn byte(image: &mut Image<0>, at: u64) -> Option<u8> {
    let mut bytes = [0];
    image.mem.read(at, &mut bytes, Use::Read).ok()?;
    Some(bytes[0])
}

/// Whether bytes can be read for a use, and are these.
fn reads(image: &mut Image<0>, at: u64, wanted: &[u8], what: Use) -> bool {
    let mut bytes = [0; 162];
    let Some(place) = bytes.get_mut(..wanted.len()) else {
        return false;
    };
    if image.mem.read(at, place, what).is_err() {
        return false;
    }
    bytes.get(..wanted.len()) == Some(wanted)
}

/// Compares the words from an address on.
fn compare_words<R: Abort>(rt: &R, image: &mut Image<0>, at: u64, words: &[u64]) {
    let mut at = at;
    for want in words {
        assert!(rt; word(image, at) == Some(*want), "at {at}");
        at = at.wrapping_add(8);
    }
}

// Where the ABI puts each word, by hand.
const HELLO_WORDS: [u64; 28] = [
    1,
    0x3f_ffff_efe0,
    0,
    0,
    3,
    0x10040,
    4,
    56,
    5,
    1,
    6,
    4096,
    9,
    0x10078,
    11,
    1000,
    12,
    1001,
    13,
    100,
    14,
    101,
    23,
    0,
    25,
    0x3f_ffff_eff0,
    0,
    0,
];

#[test]
fn the_hello_file_stands_in_memory(rt: HostRuntime) -> Result<(), Fail> {
    let args = texts(rt.alloc(), &["/hello"])?;
    let env = Texts::new(rt.alloc());
    let mut image = loaded(&rt, &mut Room::new(), &HELLO, &args, &env);
    assert!(rt; image.mem.pages() == 257);
    assert!(rt; (image.brk, image.regs.pc) == (0x11000, 0x10078));
    for (k, register) in image.regs.x.iter().enumerate() {
        let want = if k == 2 { 0x3f_ffff_ef00 } else { 0 };
        assert!(rt; *register == want, "x{k}");
    }
    assert!(rt; reads(&mut image, 0x10000, &HELLO, Use::Execute));
    assert!(rt; byte(&mut image, 0x100a2) == Some(0));
    assert!(rt; !image.mem.can(0x10000, 1, Use::Write));
    // Its first stack.
    compare_words(&rt, &mut image, 0x3f_ffff_ef00, &HELLO_WORDS);
    assert!(rt; reads(&mut image, 0x3f_ffff_efe0, b"/hello\0", Use::Write));
    let random = [0, 1, 2, 3, 4, 5, 6, 7, 8, 9, 10, 11, 12, 13, 14, 15];
    assert!(rt; reads(&mut image, 0x3f_ffff_eff0, &random, Use::Read));
    assert!(rt; image.mem.can(0x3f_ffef_f000, 0x10_0000, Use::Write));
    assert!(rt; !image.mem.can(0x3f_ffef_efff, 1, Use::Read));
    assert!(rt; !image.mem.can(0x3f_ffff_f000, 1, Use::Read));
    Ok(())
}

/// The words of a stack with two arguments and a variable.
const WORDS: [u64; 8] = [
    2,
    0x3f_ffff_efe0,
    0x3f_ffff_efe2,
    0,
    0x3f_ffff_efe5,
    0,
    3,
    0x10040,
];

#[test]
fn arguments_and_environment_stand_behind_each_other(rt: HostRuntime) -> Result<(), Fail> {
    let args = texts(rt.alloc(), &["a", "bc"])?;
    let env = texts(rt.alloc(), &["K=v"])?;
    let mut image = loaded(&rt, &mut Room::new(), &HELLO, &args, &env);
    let sp = image.regs.x[2];
    assert!(rt; sp == 0x3f_ffff_eef0);
    compare_words(&rt, &mut image, sp, &WORDS);
    assert!(rt; reads(&mut image, 0x3f_ffff_efe0, b"a\0bc\0K=v\0", Use::Read));
    Ok(())
}

// A segment of one page, whose second half is zeros, and one of three pages that begins at the end of its first.
fn with_two_segments() -> [u8; 8192] {
    with_parts([
        Part {
            flags: 4,
            offset: 0x800,
            address: 0x10800,
            file: 0x10,
            memory: 0x20,
        },
        Part {
            flags: 6,
            offset: 0xffe,
            address: 0x12ffe,
            file: 4,
            memory: 0x2002,
        },
    ])
}

/// Addresses, and the bytes that are there.
const TWO_SEGMENTS: &[(u64, Option<u8>)] = &[
    (0x10000, Some(0)),
    (0x107ff, Some(0)),
    (0x10800, Some(0x09)),
    (0x1080f, Some(0x17)),
    (0x10810, Some(0)),
    (0x11000, None),
    (0x12ffd, Some(0)),
    (0x12ffe, Some(0x0f)),
    (0x12fff, Some(0x0f)),
    (0x13000, Some(0x11)),
    (0x13001, Some(0x11)),
    (0x13002, Some(0)),
    (0x14fff, Some(0)),
    (0x15000, None),
];

#[test]
fn two_segments_have_their_bytes_and_rights(rt: HostRuntime) {
    let file = with_two_segments();
    let none = Texts::new(rt.alloc());
    let mut image = loaded(&rt, &mut Room::new(), &file, &none, &none);
    for (at, want) in TWO_SEGMENTS {
        assert!(rt; byte(&mut image, *at) == *want, "at {at}");
    }
    // A page for the first, three for the second and 256 for the stack.
    assert!(rt; (image.mem.pages(), image.brk) == (260, 0x15000));
    assert!(rt; !image.mem.can(0x10000, 1, Use::Write));
    assert!(rt; !image.mem.can(0x10000, 1, Use::Execute));
    assert!(rt; image.mem.can(0x12000, 0x3000, Use::Write));
    assert!(rt; !image.mem.can(0x12000, 1, Use::Execute));
    // No segment holds the table.
    compare_words(&rt, &mut image, 0x3f_ffff_ef28, &[3, 0]);
}

/// A segment of one page, and one of `pages` pages.
fn with_pages(pages: u64) -> [u8; 8192] {
    let one = Part {
        flags: 5,
        offset: 0,
        address: 0x10000,
        file: 0x100,
        memory: 0x100,
    };
    let large = Part {
        flags: 5,
        offset: 0,
        address: 0x100_0000,
        file: 0x100,
        memory: pages.wrapping_mul(4096),
    };
    with_parts([one, large])
}

// With 256 pages of stack, 16,384 pages are the most.
#[test]
fn limits_are_told_apart(rt: HostRuntime) -> Result<(), Fail> {
    let none = Texts::new(rt.alloc());
    let mut many = Texts::new(rt.alloc());
    for _ in 0..4097 {
        many.push(Bytes::new(rt.alloc()))?;
    }
    let mut room = Room::new();
    let too_large = with_pages(16_128);
    let refused = started(&rt, &mut room, &too_large, &many, &none).err();
    assert!(rt; matches!(refused, Some(LoadFault::TooManyArgs)));
    let refused = started(&rt, &mut room, &too_large, &none, &none).err();
    assert!(rt; matches!(refused, Some(LoadFault::TooManyPages)));
    let image = loaded(&rt, &mut room, &with_pages(16_127), &none, &none);
    assert!(rt; image.mem.pages() == 16_384);
    assert!(rt; room.free() == 262_144 - 16_384);
    Ok(())
}

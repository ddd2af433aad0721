//! Which files are accepted, and which rule others break first. All of it was worked out by hand.

use elf_load::below::{ElfFault, Segment, check};
use guests::HELLO;

/// A program header, as far as these tests vary it: its kind, its offset, its address, and its sizes in the file and in memory.
type Header = (u32, u64, u64, u64, u64);

const LOAD: u32 = 1;

const INTERP: u32 = 3;
// A kind that the RISC-V ELF specification gives to its attributes.
const ATTRIBUTES: u32 = 0x7000_0003;

fn put(file: &mut [u8], at: usize, bytes: &[u8]) {
    for (place, byte) in file.iter_mut().skip(at).zip(bytes) {
        *place = *byte;
    }
}

/// Puts a program header at a place of a file. Its rights are those to read and to execute.
fn put_header(file: &mut [u8], at: usize, header: Header) {
    let (kind, offset, address, size, memory) = header;
    put(file, at, &kind.to_le_bytes());
    put(file, at.wrapping_add(4), &[5, 0, 0, 0]);
    put(file, at.wrapping_add(8), &offset.to_le_bytes());
    put(file, at.wrapping_add(16), &address.to_le_bytes());
    put(file, at.wrapping_add(32), &size.to_le_bytes());
    put(file, at.wrapping_add(40), &memory.to_le_bytes());
}

/// A file of 2,048 bytes with the ELF header of the hello file and these program headers.
fn with_headers(headers: &[Header; 3]) -> [u8; 2048] {
    let mut file = [0; 2048];
    put(&mut file, 0, &HELLO[..64]);
    put(&mut file, 56, &[3]);
    let mut at = 64usize;
    for header in headers {
        put_header(&mut file, at, *header);
        at = at.wrapping_add(56);
    }
    file
}

/// A broken rule in a word, and the header that breaks it.
fn broken(fault: ElfFault) -> (&'static str, u64) {
    match fault {
        ElfFault::Short => ("short", 0),
        ElfFault::Magic => ("magic", 0),
        ElfFault::Class => ("class", 0),
        ElfFault::Kind => ("kind", 0),
        ElfFault::Machine => ("machine", 0),
        ElfFault::Table => ("table", 0),
        ElfFault::NoLoad => ("no load", 0),
        ElfFault::Sizes { header } => ("sizes", u64::from(header)),
        ElfFault::Outside { header } => ("outside", u64::from(header)),
        ElfFault::Order { header } => ("order", u64::from(header)),
        ElfFault::Place { header } => ("place", u64::from(header)),
        ElfFault::Interp { header } => ("interp", u64::from(header)),
    }
}

/// The first rule that a file breaks, and the header that breaks it. Of a file that is accepted, where its table stands in memory.
fn told(file: &[u8]) -> (&'static str, u64) {
    match check(file) {
        Ok(plan) => ("accepted", plan.phdr),
        Err(fault) => broken(fault),
    }
}

// The hello file, and then the same as a shared object, which is moved.
#[test]
fn the_hello_file_is_accepted_as_both_kinds(rt: HostRuntime) {
    let plan = check(&HELLO).ok().expect(&rt, "accepted");
    assert!(rt; (plan.entry, plan.phdr) == (0x10078, 0x10040));
    assert!(rt; (plan.phnum, plan.count) == (1, 1));
    for (k, segment) in plan.segments.iter().enumerate() {
        let wanted = if k == 0 {
            (0x10000, 162, 0, 162, 5)
        } else {
            (0, 0, 0, 0, 0)
        };
        let Segment {
            at,
            memory,
            offset,
            file,
            flags,
        } = *segment;
        assert!(rt; (at, memory, offset, file, flags) == wanted, "segment {k}");
    }

    let mut file = HELLO;
    file[16] = 3;
    // The entry, which no rule tests, goes past the last address and on from 0.
    put(&mut file, 24, &[0xff; 8]);
    let plan = check(&file).ok().expect(&rt, "accepted");
    assert!(rt; (plan.entry, plan.phdr) == (0x0f_ffff_ffff, 0x10_0001_0040));
    assert!(rt; plan.segments[0].at == 0x10_0001_0000);
}

/// Bytes that are put into the hello file, each with its place, and what is told of the file then.
const BYTES: &[(usize, u8, &str, u64)] = &[
    (0, 0x7e, "magic", 0),
    (3, 0x47, "magic", 0),
    (4, 1, "class", 0),
    (5, 2, "class", 0),
    (6, 0, "class", 0),
    (16, 1, "kind", 0),
    (18, 0, "machine", 0),
    (54, 57, "table", 0),
    (56, 65, "table", 0),
    (56, 0, "no load", 0),
    (64, 2, "no load", 0),
    (96, 163, "sizes", 0),
    (81, 1, "sizes", 0),
    (82, 0, "place", 0),
    (84, 0x3f, "place", 0),
    // The version word, the flags of the processor, the entry and the rights.
    (20, 7, "accepted", 0x10040),
    (48, 0xff, "accepted", 0x10040),
    (24, 0xff, "accepted", 0x10040),
    (68, 0xff, "accepted", 0x10040),
];

#[test]
fn a_byte_and_a_cut_break_a_rule(rt: HostRuntime) {
    for (at, byte, rule, number) in BYTES {
        let mut file = HELLO;
        put(&mut file, *at, &[*byte]);
        let (found, place) = told(&file);
        assert!(rt;
            found == *rule && place == *number,
            "byte {at}: {found} {place}"
        );
    }
    for size in 0..HELLO.len() {
        let rule = match size {
            0..64 => "short",
            64..120 => "table",
            _ => "outside",
        };
        let (found, place) = told(&HELLO[..size]);
        assert!(rt;
            found == rule && place == 0,
            "{size} bytes: {found} {place}"
        );
    }
}

// A whole segment of the file, the same on the next page, and headers that are none.
const GOOD: Header = (LOAD, 0, 0x10000, 2048, 2048);

const NEXT: Header = (LOAD, 0, 0x11000, 2048, 2048);

const OTHER: Header = (ATTRIBUTES, 0, 0, 0, 0);

const OUTSIDE: Header = (LOAD, 0, 0x10000, 2049, 4096);

/// What three headers show, and what is told of a file with them.
const HEADERS: &[(&str, [Header; 3], &str, u64)] = &[
    // The first broken rule.
    (
        "an interpreter",
        [GOOD, (INTERP, 0, 0, 0, 0), NEXT],
        "interp",
        1,
    ),
    (
        "broken sizes behind an interpreter",
        [GOOD, (INTERP, 0, 0, 0, 0), (LOAD, 0, 0x11000, 9, 8)],
        "sizes",
        2,
    ),
    (
        "an interpreter with broken sizes",
        [GOOD, (INTERP, 1, 0, 9, 8), NEXT],
        "interp",
        1,
    ),
    (
        "a later rule at an earlier header",
        [OUTSIDE, GOOD, (LOAD, 1, 0x20000, 1, 1)],
        "sizes",
        2,
    ),
    // Headers without a segment are passed over.
    (
        "an unknown kind",
        [GOOD, (ATTRIBUTES, 9, 8, 7, 6), NEXT],
        "accepted",
        0x10040,
    ),
    (
        "no memory size, and every other rule broken",
        [GOOD, (LOAD, 2047, 5, 99, 0), NEXT],
        "accepted",
        0x10040,
    ),
    (
        "a fault behind two headers of other kinds",
        [OTHER, (6, 0, 0, 0, 0), OUTSIDE],
        "outside",
        2,
    ),
    // A segment ends at the last place at most.
    (
        "the last place",
        [GOOD, OTHER, (LOAD, 0, 0x3e_ffff_f000, 0, 0x1000)],
        "accepted",
        0x10040,
    ),
    (
        "a byte more",
        [GOOD, OTHER, (LOAD, 0, 0x3e_ffff_f000, 0, 0x1001)],
        "place",
        2,
    ),
    // Segments are in order of pages.
    (
        "two segments on one page",
        [GOOD, (LOAD, 2048, 0x10800, 0, 1), OTHER],
        "order",
        1,
    ),
    (
        "a segment on the next page, behind a whole one",
        [(LOAD, 0, 0x10000, 0, 4096), OTHER, NEXT],
        "accepted",
        0x11040,
    ),
    (
        "a segment on the last page of the one before, which ends one byte later",
        [(LOAD, 0, 0x10000, 0, 4097), OTHER, NEXT],
        "order",
        2,
    ),
    (
        "an end past the largest address",
        [
            GOOD,
            (LOAD, 0, 0xffff_ffff_ffff_f000, 0, 0x2000),
            (LOAD, 0, 0x2000, 0, 1),
        ],
        "order",
        2,
    ),
    // The table is found in the first segment that holds it.
    (
        "the second and the third",
        [
            (LOAD, 0, 0x10000, 231, 231),
            (LOAD, 0, 0x11000, 232, 232),
            (LOAD, 0, 0x12000, 999, 999),
        ],
        "accepted",
        0x11040,
    ),
    (
        "in memory alone",
        [(LOAD, 0, 0x10000, 231, 999), OTHER, OTHER],
        "accepted",
        0,
    ),
    (
        "from its second byte on",
        [(LOAD, 65, 0x10041, 999, 999), OTHER, OTHER],
        "accepted",
        0,
    ),
    (
        "exactly",
        [(LOAD, 64, 0x10040, 168, 168), OTHER, OTHER],
        "accepted",
        0x10040,
    ),
];

#[test]
fn the_first_broken_rule_is_told(rt: HostRuntime) {
    for (name, headers, rule, number) in HEADERS {
        let (found, place) = told(&with_headers(headers));
        assert!(rt;
            found == *rule && place == *number,
            "{name}: {found} {place}"
        );
    }
}

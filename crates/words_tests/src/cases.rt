use pr_gen::below::{ROOT, Tree, write};
use pr_gen::case;
use std::test::Fail;

/// A case by its number; of the lines of its canonical listing, but those of the user and the guest, a sum over their bytes, and one of them:
/// that of the last directory's last file.
struct Row {
    number: u32,
    sum: u32,
    line: &'static [u8],
}

// Made by a program in another language.
const ROWS: [Row; 3] = [
    Row {
        number: 0,
        sum: 3_156_581_642,
        line: b"f 644 1000 1000 /g/d15/f255 716b796a6f61746974767a6d67756f757663776c6974777a66787370",
    },
    Row {
        number: 1,
        sum: 752_271_432,
        line: b"f 644 1000 1000 /g/d15/f255 696a79616f716a63796c757a7374706276716d7a74",
    },
    Row {
        number: 65_535,
        sum: 2_109_279_257,
        line: b"f 644 1000 1000 /g/d15/f255 6a717a7a796c7a6b6669707377777a61776975746b697079627867657a686f67756f767779687469737671696e70736c74786e",
    },
];

/// How many lines there are: the user's, and one for each name.
const LINES: u32 = 4376;

/// The sum over the bytes of a line and its newline, behind those of the lines before it.
fn sum_with(sum: u32, line: &[u8]) -> u32 {
    let mut sum = sum;
    for byte in line {
        sum = sum.wrapping_mul(31).wrapping_add(u32::from(*byte));
    }
    sum.wrapping_mul(31).wrapping_add(u32::from(b'\n'))
}

/// How many lines a listing has; of those other than the user's and the guest's the sum over their bytes; and whether one is the wanted one.
fn told(listing: &[u8], wanted: &[u8]) -> (u32, u32, bool) {
    let mut lines: u32 = 0;
    let mut sum = 0;
    let mut is_there = false;
    for line in listing.split(|b| *b == b'\n') {
        if line.is_empty() {
            continue;
        }
        lines = lines.wrapping_add(1);
        if !line.starts_with(b"user ") && !line.starts_with(b"f 755 ") {
            is_there = is_there || line == wanted;
            sum = sum_with(sum, line);
        }
    }
    (lines, sum, is_there)
}

// Written by the assembler of GNU binutils for the guest's program, whose labels it was given.
const ASSEMBLED: [u32; 69] = [
    0x00011437, 0x000164b7, 0x80048493, 0x00001b37, 0x200b0b13, 0x00300a13, 0x01640433, 0x01100513,
    0x00000593, 0x00000613, 0x00000693, 0x00000713, 0x0dc00893, 0x00000073, 0x00050a93, 0x000a8863,
    0xfffa0a13, 0xfc0a1ae3, 0x00011437, 0x04000913, 0xf9c00513, 0x00040593, 0x00000613, 0x00000693,
    0x03800893, 0x00000073, 0x02054c63, 0x00050993, 0x00048593, 0x04000613, 0x03f00893, 0x00000073,
    0x00050613, 0x00100513, 0x00048593, 0x04000893, 0x00000073, 0x00098513, 0x03900893, 0x00000073,
    0xf9c00513, 0x00040593, 0xf9c00613, 0x01840693, 0x00000713, 0x11400893, 0x00000073, 0xf9c00513,
    0x03040593, 0x00048613, 0x00000693, 0x04f00893, 0x00000073, 0x04840413, 0xfff90913, 0xf6091ae3,
    0x020a8463, 0x00300a13, 0xfff00513, 0x00000593, 0x00000613, 0x00000693, 0x10400893, 0x00000073,
    0xfffa0a13, 0xfe0a12e3, 0x00000513, 0x05d00893, 0x00000073,
];

/// Where the code and the data begin in the file.
const CODE: usize = 4096;

const DATA: usize = 8192;

/// The text at a place of the file, up to the zero behind it.
fn text_at(file: &[u8], at: usize) -> &[u8] {
    let text = file.get(at..).unwrap_or(&[]);
    match text.iter().position(|b| *b == 0) {
        Some(end) => text.get(..end).unwrap_or(&[]),
        None => &[],
    }
}

/// The guest's file.
fn guest_file(tree: &Tree) -> &[u8] {
    let Some(dir) = tree.entry(ROOT, b"g") else {
        return &[];
    };
    let Some(file) = tree.entry(dir, b"p") else {
        return &[];
    };
    tree.file(file).unwrap_or(&[])
}

#[test]
fn a_case_has_the_files_and_the_guest_that_are_drawn(rt: HostRuntime) -> Result<(), Fail> {
    for row in &ROWS {
        let parts = case(rt.alloc(), row.number)?;
        let listing = write(rt.alloc(), &parts.tree, parts.user)?;
        assert!(rt; told(listing.as_slice(), row.line) == (LINES, row.sum, true));
        assert!(rt; (parts.user.uid, parts.user.gid) == (1000, 1000));
        assert!(rt; parts.root.as_slice() == b"/g".as_slice());
        assert!(rt; parts.command.at(0) == Some(b"/p".as_slice()));
        assert!(rt; parts.binds.len() == 2);
    }
    let parts = case(rt.alloc(), 1)?;
    let file = guest_file(&parts.tree);
    for (k, word) in ASSEMBLED.iter().enumerate() {
        let at = CODE + 4 * k;
        assert!(rt;
            file.get(at..at + 4) == Some(word.to_le_bytes().as_slice()),
            "word {k}"
        );
    }
    // The first round is drawn as directory 1 and file 80, and the last one as directory 14 and file 234.
    assert!(rt; text_at(file, DATA) == b"/d1/f80".as_slice());
    assert!(rt; text_at(file, DATA + 24) == b"/d1/r0".as_slice());
    assert!(rt; text_at(file, DATA + 48) == b"/d1/m/n/../n/t80".as_slice());
    assert!(rt; text_at(file, DATA + 255 * 72) == b"/d14/f234".as_slice());
    assert!(rt; text_at(file, DATA + 255 * 72 + 24) == b"/d14/r63".as_slice());
    assert!(rt; text_at(file, DATA + 255 * 72 + 48) == b"/d1/m/n/../n/t234".as_slice());
    assert!(rt; file.len() == DATA + 256 * 72);
    Ok(())
}

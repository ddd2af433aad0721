//! Listings that are cut.

use crate::call::{Asked, Moving, call};
use crate::home::{HOME, WORDS};
use guests::HELLO;
use guests::below::TreeWhy;
use pr_call::Answer;
use std::test::Fail;

/// Whether this line of the listing breaks the form.
fn is_torn(answer: Answer, wanted: u32) -> bool {
    match answer {
        Answer::TreeBad {
            line,
            why: TreeWhy::Form,
        } => line == wanted,
        _ => false,
    }
}

// A listing that is cut inside a line breaks the form of that line: each line ends with a newline.
#[test]
fn listings_are_cut_inside_a_line(rt: HostRuntime) -> Result<(), Fail> {
    let alloc = rt.alloc();
    let mut line = 1_u32;
    for (place, byte) in HOME.iter().enumerate() {
        if *byte == b'\n' {
            line = line.saturating_add(1);
            continue;
        }
        let (cut, _rest) = HOME.split_at(place.saturating_add(1).min(HOME.len()));
        let told = call(
            alloc,
            Asked {
                words: WORDS,
                tree: cut,
                elf: &HELLO,
                input: b"",
                moving: Moving::Whole,
            },
        )?;
        assert!(rt; is_torn(told.answer, line), "byte {place}");
    }
    Ok(())
}

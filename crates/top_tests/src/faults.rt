//! Objects that give little, tear, or fail at one of their calls.

use crate::call::{Asked, Moving, call};
use crate::home::{HOME, RUN, SHOWN, WORDS};
use guests::guest;
use pr_call::Which;
use std::alloc::Global;
use std::process::Abort;
use std::test::Fail;

/// How objects move bytes, how the program ends, and what stands in the sinks then.
#[derive(Clone, Copy)]
struct Row {
    moving: Moving,
    status: u8,
    line: &'static str,
    out: &'static str,
    /// Whether the listing was put.
    left: bool,
}

/// A source's call fails.
fn unread(which: Which, call: u32, line: &'static str) -> Row {
    Row {
        moving: Moving::Failing(which, call),
        status: 122,
        line,
        out: "",
        left: false,
    }
}

/// A sink's call fails, where so much was put out.
fn unput(moving: Moving, line: &'static str, out: &'static str) -> Row {
    Row {
        moving,
        status: 122,
        line,
        out,
        left: false,
    }
}

/// Nothing fails.
fn whole(moving: Moving) -> Row {
    Row {
        moving,
        status: 0,
        line: "",
        out: SHOWN,
        left: true,
    }
}

/// Compares what a row comes to on a machine.
fn compare_row<R: Abort>(
    rt: &R,
    alloc: Global,
    machine: &str,
    elf: &[u8],
    row: Row,
    err: &str,
    k: usize,
) -> Result<(), Fail> {
    let words = format!(in alloc; "{machine}{WORDS}")?;
    let told = call(
        alloc,
        Asked {
            words: words.as_str(),
            tree: HOME,
            elf,
            input: b"in",
            moving: row.moving,
        },
    )?;
    let ends = told.ends(alloc, row.status, row.line)?;
    let puts = told.out.got() == row.out.as_bytes() && told.err.got() == err.as_bytes();
    let leaves = told.left.got().is_empty() != row.left;
    assert!(rt;
        ends && puts && leaves,
        "{machine}row {k}: {ends} {puts} {leaves}"
    );
    Ok(())
}

// Each source is read with one call that gives its bytes, and one that finds its end. The out sink gets the bytes of three turns, the err
// sink none, and the left sink the listing.
#[test]
fn objects_may_be_slow_or_fail(rt: HostRuntime) -> Result<(), Fail> {
    let alloc = rt.alloc();
    let elf = guest(alloc, RUN)?;
    let tree = "proot: read fault: Tree\n";
    let program = "proot: read fault: Elf\n";
    let input = "proot: read fault: Input\n";
    let out = "proot: write fault: Out\n";
    let left = "proot: write fault: Left\n";
    let rows = [
        whole(Moving::Whole),
        whole(Moving::ByteByByte),
        unread(Which::Tree, 0, tree),
        unread(Which::Tree, 1, tree),
        whole(Moving::Failing(Which::Tree, 2)),
        unread(Which::Elf, 0, program),
        unread(Which::Elf, 1, program),
        unread(Which::Input, 0, input),
        unread(Which::Input, 1, input),
        unput(Moving::Failing(Which::Out, 0), out, ""),
        unput(Moving::Failing(Which::Out, 1), out, "hello\n"),
        unput(Moving::Failing(Which::Out, 2), out, "hello\n3\n"),
        whole(Moving::Failing(Which::Out, 3)),
        whole(Moving::Failing(Which::Err, 0)),
        unput(Moving::Failing(Which::Left, 0), left, SHOWN),
        unput(Moving::Torn(1, 1), out, "hello\n3"),
        unput(Moving::Torn(0, 9), out, "hello\n"),
    ];
    for machine in &["", "--native "] {
        for (k, row) in rows.iter().enumerate() {
            compare_row(&rt, alloc, machine, elf.as_slice(), *row, "", k)?;
        }
    }
    // Under `--calm` one line more is put, before the listing.
    let calm = "--native --calm ";
    let elf = elf.as_slice();
    let err = "proot: write fault: Err\n";
    let failing = unput(Moving::Failing(Which::Err, 0), err, SHOWN);
    compare_row(&rt, alloc, calm, elf, failing, "", 0)?;
    let later = whole(Moving::Failing(Which::Err, 1));
    compare_row(&rt, alloc, calm, elf, later, "calm: yes\n", 1)
}

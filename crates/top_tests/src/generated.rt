//! Generated cases, which both machines run, and how their outcomes are compared.

use crate::call::{Asked, Moving, Told, call};
use guests::HELLO;
use guests::below::{Bytes, Tree, User, read};
use pr_call::Which;
use pr_call::below::{End, Kept, Written, tell};
use std::alloc::Global;
use std::process::Abort;
use std::test::Fail;

/// Words that run case 1 to its end.
const WHOLE: [&str; 4] = [
    "--case=1",
    "--case=1",
    "--case=1 --schedule=0*1000",
    "--schedule=3*250,1*9000 --turns=1000000 --case=1",
];

/// The first lines of its summary. How many turns it takes is the guest's own.
const FIRST: &[u8] = b"case 1\nend ended 0\nturns ";

/// The last ones: the names are those of 16 times 256 files, of 256 empty ones, of 22 directories, and of the program. The bytes
/// are those of the files that the draws open under a name that they still have.
const LAST: &[u8] = b"\nnames 4375\nout 7982\nagree yes\n";

/// A call whose sources hold no listing and no program.
fn generate(alloc: Global, words: &str, moving: Moving) -> Result<Told, Fail> {
    call(
        alloc,
        Asked {
            words,
            tree: b"no listing",
            elf: b"no program",
            input: b"",
            moving,
        },
    )
}

/// How many times a text has a word.
fn times(text: &[u8], word: &[u8]) -> usize {
    text.windows(word.len().max(1))
        .filter(|part| *part == word)
        .count()
}

/// Fails unless each process left the new name of its first round once, in one of its four directories.
fn find_names<R: Abort>(rt: &R, alloc: Global, listing: &[u8]) -> Result<(), Fail> {
    for process in 0..4_usize {
        let mut names = 0_usize;
        for own in 0..4_usize {
            let directory = 4 * process + own;
            let path = format!(in alloc; " /g/d{directory}/r0 ")?;
            names = names.saturating_add(times(listing, path.as_bytes()));
        }
        assert!(rt; names == 1, "process {process}");
    }
    Ok(())
}

#[test]
fn both_machines_run_a_case_and_agree(rt: HostRuntime) -> Result<(), Fail> {
    let alloc = rt.alloc();
    let first = generate(alloc, "--case=1", Moving::Whole)?;
    find_names(&rt, alloc, first.left.got())?;
    for words in &WHOLE {
        let told = generate(alloc, words, Moving::Whole)?;
        assert!(rt; told.ends(alloc, 0, "")?, "{words}");
        assert!(rt; told.out.got().starts_with(FIRST), "{words}");
        assert!(rt; told.out.got().ends_with(LAST), "{words}");
        assert!(rt; told.err.got().is_empty(), "{words}");
        assert!(rt; told.left.got() == first.left.got(), "{words}");
    }
    Ok(())
}

/// How objects move bytes in a run of 100 turns, and what it comes to. Its output has so many bytes of the summary, all where none are told.
#[derive(Clone, Copy)]
struct Row {
    moving: Moving,
    status: u8,
    line: &'static str,
    out: Option<usize>,
    left: bool,
}

/// A source that would fail is not read.
fn unread(which: Which) -> Row {
    Row {
        moving: Moving::Failing(which, 0),
        status: 0,
        line: "",
        out: None,
        left: true,
    }
}

/// A sink fails, where so many bytes of the summary were put.
fn unput(moving: Moving, line: &'static str, out: Option<usize>) -> Row {
    Row {
        moving,
        status: 122,
        line,
        out,
        left: false,
    }
}

#[test]
fn a_case_reads_no_source_and_puts_no_errors(rt: HostRuntime) -> Result<(), Fail> {
    let alloc = rt.alloc();
    let words = "--case=1 --turns=100";
    let whole = generate(alloc, words, Moving::Whole)?;
    let summary = whole.out.got();
    assert!(rt; summary.starts_with(b"case 1\nend spent\nturns 100\nnames 4375\nout "));
    assert!(rt; summary.ends_with(b"\nagree yes\n"));
    let rows = [
        unread(Which::Tree),
        unread(Which::Elf),
        unread(Which::Input),
        // Nothing is put to it.
        unread(Which::Err),
        unput(
            Moving::Failing(Which::Out, 0),
            "proot: write fault: Out\n",
            Some(0),
        ),
        unput(Moving::Torn(0, 5), "proot: write fault: Out\n", Some(5)),
        unput(
            Moving::Failing(Which::Left, 0),
            "proot: write fault: Left\n",
            None,
        ),
    ];
    for (k, row) in rows.iter().enumerate() {
        let told = generate(alloc, words, row.moving)?;
        let put = row.out.unwrap_or(summary.len()).min(summary.len());
        assert!(rt; told.ends(alloc, row.status, row.line)?, "row {k}");
        assert!(rt; told.out.got() == &summary[..put], "row {k}");
        assert!(rt; told.err.got().is_empty(), "row {k}");
        assert!(rt; told.left.got().is_empty() != row.left, "row {k}");
    }
    Ok(())
}

/// What became of a run: the output and the error bytes of its two turns, its end, its status, and the tree that it left.
#[derive(Clone, Copy)]
struct Outcome {
    puts: [(&'static [u8], &'static [u8]); 2],
    end: End,
    status: u8,
    tree: &'static [u8],
}

/// A tree with a file.
const TREE: &[u8] = b"user 1000 1000\nd 755 0 0 /\nf 644 1000 1000 /a 61\n";

const PUTS: [(&[u8], &[u8]); 2] = [(b"ab", b""), (b"c", b"e")];

fn make(
    puts: [(&'static [u8], &'static [u8]); 2],
    end: End,
    status: u8,
    tree: &'static [u8],
) -> Outcome {
    Outcome {
        puts,
        end,
        status,
        tree,
    }
}

/// The same with other bytes in the file.
const OTHER_TREE: &[u8] = b"user 1000 1000\nd 755 0 0 /\nf 644 1000 1000 /a 62\n";

fn kept(alloc: Global, from: &Outcome) -> Result<(Kept, Tree, User), Fail> {
    let mut puts = Vec::new(alloc);
    for (out, err) in &from.puts {
        let out = Bytes::copy(alloc, out)?;
        let err = Bytes::copy(alloc, err)?;
        puts.push(Written { out, err })?;
    }
    let elf: &[u8] = &HELLO;
    let Ok((tree, user)) = read(alloc, from.tree, Some(elf)) else {
        return Err(Fail::from("no listing"));
    };
    let kept = Kept {
        puts,
        end: from.end,
        status: from.status,
    };
    Ok((kept, tree, user))
}

/// Compares what is told of two outcomes with a summary and a status.
fn compare<R: Abort>(
    rt: &R,
    alloc: Global,
    watched: &Outcome,
    mounted: &Outcome,
    summary: &str,
    status: u8,
) -> Result<(), Fail> {
    let (watched_kept, watched_tree, user) = kept(alloc, watched)?;
    let (mounted_kept, mounted_tree, _user) = kept(alloc, mounted)?;
    let told = tell(
        alloc,
        7,
        user,
        &watched_kept,
        &watched_tree,
        &mounted_kept,
        &mounted_tree,
    )?;
    assert!(rt; told.summary.as_slice() == summary.as_bytes(), "{summary}");
    assert!(rt; told.listing.as_slice() == watched.tree);
    assert!(rt; told.status == status);
    Ok(())
}

#[test]
fn outcomes_agree_where_nothing_differs(rt: HostRuntime) -> Result<(), Fail> {
    let alloc = rt.alloc();
    let yes = "case 7\nend ended 3\nturns 2\nnames 2\nout 3\nagree yes\n";
    let no = "case 7\nend ended 3\nturns 2\nnames 2\nout 3\nagree no\n";
    let watched = make(PUTS, End::Over, 3, TREE);
    let others = [
        make([(b"ax", b""), (b"c", b"e")], End::Over, 3, TREE),
        make([(b"ab", b""), (b"c", b"f")], End::Over, 3, TREE),
        // The same bytes in other turns, and on the other sink.
        make([(b"a", b""), (b"bc", b"e")], End::Over, 3, TREE),
        make([(b"ab", b""), (b"", b"ce")], End::Over, 3, TREE),
        make(PUTS, End::Deadlock, 3, TREE),
        make(PUTS, End::Spent, 3, TREE),
        make(PUTS, End::Over, 4, TREE),
        make(PUTS, End::Over, 3, OTHER_TREE),
    ];
    compare(&rt, alloc, &watched, &watched, yes, 0)?;
    for other in &others {
        compare(&rt, alloc, &watched, other, no, 1)?;
    }
    let waiting = make(PUTS, End::Deadlock, 3, TREE);
    let deadlock = "case 7\nend deadlock\nturns 2\nnames 2\nout 3\nagree no\n";
    compare(&rt, alloc, &waiting, &watched, deadlock, 1)?;
    let unended = make(PUTS, End::Spent, 3, TREE);
    let spent = "case 7\nend spent\nturns 2\nnames 2\nout 3\nagree yes\n";
    compare(&rt, alloc, &unended, &unended, spent, 0)?;
    Ok(())
}

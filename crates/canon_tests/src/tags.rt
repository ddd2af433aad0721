//! What the calls on tags answer with ample memory.

use pt_results::below::Tags;
use std::test::Fail;

/// What has a tag in a process.
#[derive(Clone, Copy)]
enum Slot {
    Cwd,
    Exe,
    Fd(u32),
}

/// A process, what is asked of it, and its tag.
type Row = (u32, Slot, u32);

const BEFORE: &[Row] = &[(1, Slot::Cwd, 0), (1, Slot::Exe, 0), (1, Slot::Fd(3), 0)];

const SET: &[Row] = &[
    (1, Slot::Cwd, 2),
    (1, Slot::Exe, 3),
    (1, Slot::Fd(3), 4),
    (1, Slot::Fd(4), 0),
    (1, Slot::Fd(u32::MAX), 5),
    (2, Slot::Cwd, 0),
];

// A forked process has tags of its own.
const FORKED: &[Row] = &[
    (1, Slot::Fd(3), 0),
    (2, Slot::Cwd, 2),
    (2, Slot::Exe, 3),
    (2, Slot::Fd(3), 4),
    (2, Slot::Fd(9), 0),
];

const DROPPED: &[Row] = &[
    (1, Slot::Fd(u32::MAX), 0),
    (1, Slot::Cwd, 0),
    (2, Slot::Cwd, 2),
];

fn tag(tags: &Tags, pid: u32, slot: Slot) -> u32 {
    match slot {
        Slot::Cwd => tags.cwd(pid),
        Slot::Exe => tags.exe(pid),
        Slot::Fd(fd) => tags.fd(pid, fd),
    }
}

/// The first row that the tags don't meet, if there is one.
fn unmet<'a>(tags: &Tags, rows: &'a [Row]) -> Option<&'a Row> {
    for row in rows {
        if tag(tags, row.0, row.1) != row.2 {
            return Some(row);
        }
    }
    None
}

#[test]
fn tags_are_kept_for_slots_and_copied_at_a_fork(rt: HostRuntime) -> Result<(), Fail> {
    let mut tags = Tags::new(rt.alloc());
    assert!(rt; unmet(&tags, BEFORE).is_none());
    tags.set_cwd(1, 2)?;
    tags.set_exe(1, 3)?;
    tags.set_fd(1, 3, 4)?;
    tags.set_fd(1, u32::MAX, 5)?;
    assert!(rt; unmet(&tags, SET).is_none());
    tags.set_fd(2, 9, 1)?;
    tags.fork(1, 2)?;
    tags.set_fd(1, 3, 0)?;
    assert!(rt; unmet(&tags, FORKED).is_none());
    tags.drop_pid(1);
    assert!(rt; unmet(&tags, DROPPED).is_none());
    tags.fork(1, 2)?;
    assert!(rt; unmet(&tags, &[(2, Slot::Cwd, 0)]).is_none());
    Ok(())
}

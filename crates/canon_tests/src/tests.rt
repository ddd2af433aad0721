//! Walks over guest texts with ample memory, and with too little, and what a tracer asks a kernel beside them. What each must answer was
//! worked out by hand.

use crate::tables;
use crate::walking::Want::{At, Refused};
use crate::walking::{Bench, Case, End, THERE, calls_of_first, listed, meets, without_jumps};
use pt_results::below::{Bytes, Errno, Last, NoMemory, Request, Tags, WalkErr, WalkMode, Walker};
use std::alloc::Global;
use std::test::Fail;

const LOOK: WalkMode = WalkMode::Look;

const LINK: WalkMode = WalkMode::LookLink;

const NAME: WalkMode = WalkMode::Name;

const OPEN: WalkMode = WalkMode::Open;

const THERE_SLASH: End = End(Last::Name, true, true);

const FREE: End = End(Last::Name, false, false);

const FREE_SLASH: End = End(Last::Name, true, false);

const ROOT: End = End(Last::Root, false, true);

const DOT: End = End(Last::Dot, false, true);

const DOT_SLASH: End = End(Last::Dot, true, true);

const UP: End = End(Last::DotDot, false, true);

const UP_SLASH: End = End(Last::DotDot, true, true);

const FREE_ROOT: End = End(Last::Root, false, false);

const FREE_DOT: End = End(Last::Dot, false, false);

const FREE_DOT_SLASH: End = End(Last::Dot, true, false);

const FREE_UP: End = End(Last::DotDot, false, false);

const FREE_UP_SLASH: End = End(Last::DotDot, true, false);

/// A directory is bound at `/mnt`.
const ONE_BINDING: &[Case] = &[
    // Names.
    (b"/", b"/mnt/n", LOOK, At(b"/mnt/n", b"/data/n", 1, THERE)),
    (b"/", b"mnt/n", LOOK, At(b"/mnt/n", b"/data/n", 1, THERE)),
    (b"/mnt", b"n", LOOK, At(b"/mnt/n", b"/data/n", 1, THERE)),
    (b"/", b"/mntx", LOOK, At(b"/mntx", b"/g/mntx", 0, THERE)),
    (b"/", b"/mnt", LOOK, At(b"/mnt", b"/data", 1, THERE)),
    (
        b"/",
        b"../../mnt/n",
        LOOK,
        At(b"/mnt/n", b"/data/n", 1, THERE),
    ),
    (
        b"/",
        b"//a/.//b/../b/f",
        LOOK,
        At(b"/a/b/f", b"/g/a/b/f", 0, THERE),
    ),
    (b"/", b"/mnt/../f", LOOK, At(b"/f", b"/g/f", 0, THERE)),
    (
        b"/",
        b"/closed",
        LOOK,
        At(b"/closed", b"/g/closed", 0, THERE),
    ),
    // Errors.
    (b"/", b"/mnt/z", LOOK, Refused(Errno::ENOENT)),
    (b"/", b"/z/..", LOOK, Refused(Errno::ENOENT)),
    (b"/", b"/z/x", NAME, Refused(Errno::ENOENT)),
    (b"/", b"/f/..", LOOK, Refused(Errno::ENOTDIR)),
    (b"/", b"/f/.", NAME, Refused(Errno::ENOTDIR)),
    (b"/", b"/closed/..", LOOK, Refused(Errno::EACCES)),
    (b"/", b"/closed/x", OPEN, Refused(Errno::EACCES)),
    (b"/z", b"..", LOOK, Refused(Errno::ENOENT)),
    (b"/f", b"n", NAME, Refused(Errno::ENOTDIR)),
    // Endings, where something must be there.
    (b"/", b"/", LOOK, At(b"/", b"/g", 0, ROOT)),
    (b"/mnt", b"", LOOK, At(b"/mnt", b"/data", 1, ROOT)),
    (b"/", b"/mnt/.", LOOK, At(b"/mnt", b"/data", 1, DOT)),
    (b"/", b"/mnt/./", LOOK, At(b"/mnt", b"/data", 1, DOT_SLASH)),
    (b"/", b"/mnt/..", LOOK, At(b"/", b"/g", 0, UP)),
    (b"/", b"/../", LOOK, At(b"/", b"/g", 0, UP_SLASH)),
    (b"/", b"/mnt/", LOOK, At(b"/mnt", b"/data", 1, THERE_SLASH)),
    (b"/", b"/mnt/n/", LOOK, Refused(Errno::ENOTDIR)),
    (b"/", b"/mnt/z/", LOOK, Refused(Errno::ENOENT)),
    // Entries, there or free. Behind `.` and `..` the directory is the one in which these stand.
    (b"/", b"/", OPEN, At(b"/", b"/g", 0, FREE_ROOT)),
    (b"/mnt", b"", OPEN, At(b"/mnt", b"/data", 1, FREE_ROOT)),
    (b"/", b"/mnt/.", OPEN, At(b"/mnt", b"/data", 1, FREE_DOT)),
    (
        b"/",
        b"/mnt/./",
        OPEN,
        At(b"/mnt", b"/data", 1, FREE_DOT_SLASH),
    ),
    (b"/", b"/mnt/..", OPEN, At(b"/mnt", b"/data", 1, FREE_UP)),
    (b"/", b"/../", OPEN, At(b"/", b"/g", 0, FREE_UP_SLASH)),
    (b"/", b"/mnt/n", OPEN, At(b"/mnt/n", b"/data/n", 1, THERE)),
    (
        b"/",
        b"/mnt/n/",
        OPEN,
        At(b"/mnt/n", b"/data/n", 1, THERE_SLASH),
    ),
    (b"/", b"/mnt/z", OPEN, At(b"/mnt/z", b"/data/z", 1, FREE)),
    (
        b"/",
        b"/mnt/z/",
        OPEN,
        At(b"/mnt/z", b"/data/z", 1, FREE_SLASH),
    ),
    (b"/", b"/mnty", OPEN, At(b"/mnty", b"/g/mnty", 0, FREE)),
    // Links.
    (b"/", b"/mnt/abs", LOOK, At(b"/f", b"/g/f", 0, THERE)),
    (b"/", b"/mnt/abs", OPEN, At(b"/f", b"/g/f", 0, THERE)),
    (
        b"/",
        b"/mnt/abs",
        LINK,
        At(b"/mnt/abs", b"/data/abs", 1, THERE),
    ),
    (
        b"/",
        b"/mnt/abs",
        NAME,
        At(b"/mnt/abs", b"/data/abs", 1, THERE),
    ),
    (b"/", b"/mnt/up", LOOK, At(b"/f", b"/g/f", 0, THERE)),
    (b"/", b"/mnt/out", LOOK, At(b"/f", b"/g/f", 0, THERE)),
    (b"/", b"/out", LOOK, At(b"/mnt/n", b"/data/n", 1, THERE)),
    (b"/", b"/in", LOOK, At(b"/mnt/n", b"/data/n", 1, THERE)),
    (
        b"/",
        b"/mnt/dir/b/f",
        LOOK,
        At(b"/a/b/f", b"/g/a/b/f", 0, THERE),
    ),
    (
        b"/",
        b"/mnt/dir",
        LINK,
        At(b"/mnt/dir", b"/data/dir", 1, THERE),
    ),
    // A slash behind a link or behind its text, links that loop, and one to a free name.
    (b"/", b"/mnt/dir", LOOK, At(b"/a", b"/g/a", 0, THERE_SLASH)),
    (b"/", b"/mnt/dir", OPEN, At(b"/a", b"/g/a", 0, THERE_SLASH)),
    (b"/", b"/mnt/dir/", LINK, At(b"/a", b"/g/a", 0, THERE_SLASH)),
    (
        b"/",
        b"/mnt/dir/",
        NAME,
        At(b"/mnt/dir", b"/data/dir", 1, THERE_SLASH),
    ),
    (b"/", b"/empty", LOOK, At(b"/", b"/g", 0, ROOT)),
    (b"/", b"/mnt/lost", OPEN, At(b"/mnt/z", b"/data/z", 1, FREE)),
    (b"/", b"/mnt/lost", LOOK, Refused(Errno::ENOENT)),
    (b"/", b"/mnt/abs/", LINK, Refused(Errno::ENOTDIR)),
    (b"/", b"/out/x", LOOK, Refused(Errno::ENOTDIR)),
    (b"/", b"/loop", LOOK, Refused(Errno::ELOOP)),
    (b"/", b"/loop/x", NAME, Refused(Errno::ELOOP)),
];

/// Bindings stand in bindings, and processes have tags.
const BINDINGS_IN_BINDINGS: &[Case] = &[
    // Bindings in bindings, and the whole host in the guest.
    (
        b"/",
        b"/mnt/x/n",
        LOOK,
        At(b"/mnt/x/n", b"/data/n", 4, THERE),
    ),
    (b"/", b"/mnt/o", LOOK, At(b"/mnt/o", b"/other/o", 2, THERE)),
    (b"/", b"/b/../f", LOOK, At(b"/f", b"/g/f", 0, THERE)),
    (b"/", b"/b/abs", LOOK, At(b"/f", b"/g/f", 0, THERE)),
    (
        b"/",
        b"/mnt/x/../o",
        LOOK,
        At(b"/mnt/o", b"/other/o", 2, THERE),
    ),
    (b"/", b"/all", LOOK, At(b"/all", b"/", 1, THERE)),
    (b"/", b"/all/g/f", LOOK, At(b"/all/g/f", b"/g/f", 1, THERE)),
    (b"/", b"/mnt/x/..", LOOK, At(b"/mnt", b"/other", 2, UP)),
    (b"/", b"/all/..", LOOK, At(b"/", b"/g", 0, UP)),
    (b"/", b"/all/q", NAME, At(b"/all/q", b"/q", 1, FREE)),
    // Links of the process directory.
    (b"/", b"/proc/1/cwd", LOOK, At(b"/b", b"/data", 3, THERE)),
    (
        b"/",
        b"/proc/self/cwd/n",
        LOOK,
        At(b"/b/n", b"/data/n", 3, THERE),
    ),
    (
        b"/",
        b"/proc/1/exe",
        OPEN,
        At(b"/mnt/x/n", b"/data/n", 4, THERE),
    ),
    (b"/", b"/proc/1/root", LOOK, At(b"/", b"/g", 0, THERE)),
    (b"/", b"/proc/1/root/f", LOOK, At(b"/f", b"/g/f", 0, THERE)),
    (b"/", b"/proc/1/fd/3", LOOK, At(b"/b", b"/data", 3, THERE)),
    (
        b"/",
        b"/proc/1/fd/3/../f",
        LOOK,
        At(b"/f", b"/g/f", 0, THERE),
    ),
    (
        b"/",
        b"/proc/1/fd/4",
        LINK,
        At(b"/proc/1/fd/4", b"/proc/1/fd/4", 6, THERE),
    ),
    (
        b"/",
        b"/proc/1/cwd",
        NAME,
        At(b"/proc/1/cwd", b"/proc/1/cwd", 6, THERE),
    ),
    // A slash behind one, and those that lead nowhere: of what has no name, as a pipe, and by a tag of which none comes.
    (
        b"/",
        b"/proc/1/cwd/",
        LOOK,
        At(b"/b", b"/data", 3, THERE_SLASH),
    ),
    (
        b"/",
        b"/proc/1/cwd/",
        LINK,
        At(b"/b", b"/data", 3, THERE_SLASH),
    ),
    (
        b"/",
        b"/proc/1/exe/",
        OPEN,
        At(b"/mnt/x/n", b"/data/n", 4, THERE_SLASH),
    ),
    (b"/", b"/proc/1/exe/", LOOK, Refused(Errno::ENOTDIR)),
    (b"/", b"/proc/1/exe/x", LOOK, Refused(Errno::ENOTDIR)),
    (b"/", b"/proc/1/fd/4", LOOK, Refused(Errno::ENOENT)),
    (b"/", b"/proc/1/fd/4/x", LOOK, Refused(Errno::ENOENT)),
    (b"/", b"/proc/1/fd/5", OPEN, Refused(Errno::ENOENT)),
    (b"/", b"/proc/1/fd/6", LOOK, Refused(Errno::ENOENT)),
    (b"/", b"/proc/1/fd/7", LOOK, Refused(Errno::ENOENT)),
];

/// The tags of process 1: its working directory and descriptor 3 were found below `/b`, its executable below `/mnt/x`,
/// descriptor 5 has the tag of a binding that doesn't hold it, and descriptor 7 has none.
fn tagged(alloc: Global) -> Result<Tags, NoMemory> {
    let mut tags = Tags::new(alloc);
    tags.set_cwd(1, 3)?;
    tags.set_exe(1, 4)?;
    tags.set_fd(1, 3, 3)?;
    tags.set_fd(1, 5, 2)?;
    Ok(tags)
}

/// A tracer of process 1 over bindings in bindings.
fn nested(alloc: Global) -> Result<Bench, NoMemory> {
    let table = tables::bindings_in_bindings(alloc)?;
    Bench::new(alloc, table, listed(alloc)?, tagged(alloc)?)
}

#[test]
fn paths_lead_where_they_must(rt: HostRuntime) -> Result<(), Fail> {
    let table = tables::one_binding(rt.alloc())?;
    let told = listed(rt.alloc())?;
    let mut bench = Bench::new(rt.alloc(), table, told, Tags::new(rt.alloc()))?;
    assert!(rt; bench.unmet(ONE_BINDING).is_none());
    let mut bench = nested(rt.alloc())?;
    assert!(rt; bench.unmet(BINDINGS_IN_BINDINGS).is_none());
    Ok(())
}

/// Paths, and how many peeks they take. A directory takes one at itself and one at it, and each name one; a link takes one at its text or
/// its object's name beside, and what is behind it begins anew.
const PEEKS: &[(&[u8], u32)] = &[
    (b"/", 0),
    (b"/a", 3),
    (b"/a/b/f", 7),
    (b"/a/./b", 5),
    (b"/a/../b", 7),
    (b"/b/abs", 9),
    (b"/proc/1/cwd", 8),
];

#[test]
fn few_peeks_are_made(rt: HostRuntime) -> Result<(), Fail> {
    let mut bench = nested(rt.alloc())?;
    for (path, peeks) in PEEKS {
        assert!(rt; bench.peeks(path) == Some(*peeks));
    }
    // A directory that was found to be searchable isn't asked for again.
    bench.set_calls(2);
    let mut path = Bytes::new(rt.alloc());
    for _dot in 0..4_096 {
        path.append(b"./")?;
    }
    let answer = bench.walk(b"/", path.as_slice(), LOOK);
    assert!(rt; meets(&answer, At(b"/", b"/g", 0, DOT_SLASH)));
    Ok(())
}

/// Paths, and how many calls their first walks take that are asked whether they are steady: one beside the peeks, for the whole host path; and one
/// for each host path in front of which that doesn't stand, as where a binding begins or behind `..`.
const CALLS_OF_FIRST: &[(&[u8], u32)] = &[
    (b"/", 0),
    (b"/a", 4),
    (b"/a/b/f", 8),
    (b"/mnt/n", 8),
    (b"/a/../b", 10),
];

#[test]
fn steadiness_is_asked_once(rt: HostRuntime) -> Result<(), Fail> {
    for (path, calls) in CALLS_OF_FIRST {
        assert!(rt; calls_of_first(rt.alloc(), path)? == Some(*calls));
    }
    Ok(())
}

#[test]
fn want_of_memory_is_told(rt: HostRuntime) -> Result<(), Fail> {
    let mut bench = nested(rt.alloc())?;
    let opening = Request::Openat {
        dirfd: -100,
        path: Bytes::copy(rt.alloc(), b"n")?,
        flags: 0,
        mode: 0,
    };
    let reading = Request::Readlinkat {
        dirfd: -100,
        path: Bytes::copy(rt.alloc(), b"/proc/1/cwd")?,
        buf: 0x3000,
        size: 64,
    };
    bench.set_calls(0);
    assert!(rt; matches!(bench.directory(), Err(NoMemory)));
    assert!(rt; matches!(bench.link(&reading), Err(NoMemory)));
    assert!(rt; matches!(bench.program(b"n"), Err(WalkErr::NoMemory)));
    // One call for the name of the working directory, three for its one component.
    bench.set_calls(3);
    assert!(rt; matches!(bench.edit(&opening), Err(NoMemory)));
    bench.set_calls(4);
    assert!(rt; bench.edit(&opening).is_ok());
    bench.set_calls(100);
    assert!(rt; bench.directory().is_ok());
    assert!(rt; bench.link(&reading).is_ok());
    assert!(rt; matches!(bench.program(b"n"), Err(WalkErr::Err(Errno::EACCES))));
    Ok(())
}

#[test]
fn answers_are_remembered(rt: HostRuntime) -> Result<(), Fail> {
    let table = tables::one_binding(rt.alloc())?;
    let mut told = without_jumps(rt.alloc())?;
    let tags = Tags::new(rt.alloc());
    let mut walker = Walker::new(rt.alloc(), table)?;
    let wanted = At(b"/f", b"/g/f", 0, THERE);
    let first = walker.canon(&mut told, &tags, b"/", b"/f", LOOK);
    assert!(rt; meets(&first, wanted));
    assert!(rt; walker.remembered() == 1);
    // The second walk asks the kernel nothing.
    told.set_calls(0);
    let second = walker.canon(&mut told, &tags, b"/", b"/f", LOOK);
    assert!(rt; meets(&second, wanted));
    assert!(rt; walker.remembered() == 1);
    walker.pause();
    assert!(rt; walker.remembered() == 0);
    Ok(())
}

//! Walks over trees that are made name by name: in each mode and with each ending, and what they reach.

use crate::walking::{Seen, linked_tree, nothing, walk_from};
use kr_walk::below::{
    Bytes, Errno, HostMount, Ino, Last, NoMemory, Plain, ROOT, Reach, Tree, WalkMode, plain_stands,
    trees_are_kept,
};
use kr_walk::guest_name;
use std::alloc::Global;
use std::test::Fail;

const LOOK: WalkMode = WalkMode::Look;

const LINK: WalkMode = WalkMode::LookLink;

const NAME: WalkMode = WalkMode::Name;

const OPEN: WalkMode = WalkMode::Open;

/// Paths from the root, each with a mode and what the walk along it answers.
const WALKS: &[(&[u8], WalkMode, Seen)] = &[
    (b"/d/f", LOOK, Seen::At(2, 1, Last::Name, false, Some(4))),
    (b"/d/f/", LOOK, Seen::Refused(Errno::ENOTDIR)),
    (b"//d//", LOOK, Seen::At(1, 1, Last::Name, true, Some(2))),
    (b"d/.", LOOK, Seen::At(2, 0, Last::Dot, false, Some(2))),
    (
        b"d/e/..",
        LOOK,
        Seen::At(3, 0, Last::DotDot, false, Some(2)),
    ),
    (b"/..", LOOK, Seen::At(1, 0, Last::DotDot, false, Some(1))),
    (b"///", LOOK, Seen::At(1, 0, Last::Root, false, Some(1))),
    (b"/d/.", NAME, Seen::At(2, 0, Last::Dot, false, Some(2))),
    (b"/d/..", OPEN, Seen::At(2, 0, Last::DotDot, false, Some(1))),
    (b"/", LINK, Seen::At(1, 0, Last::Root, false, Some(1))),
    (b"/nothing/..", LOOK, Seen::Refused(Errno::ENOENT)),
    (b"/d/f/..", LOOK, Seen::Refused(Errno::ENOTDIR)),
    (b"/n/..", LOOK, Seen::Refused(Errno::EACCES)),
    (b"/n/.", LOOK, Seen::Refused(Errno::EACCES)),
    (b"/n/x", LOOK, Seen::Refused(Errno::EACCES)),
    (b"/abs", LOOK, Seen::At(2, 1, Last::Name, false, Some(3))),
    (b"/abs", LINK, Seen::At(1, 3, Last::Name, false, Some(9))),
    (b"/abs/", LINK, Seen::At(2, 1, Last::Name, true, Some(3))),
    (b"/abs/", NAME, Seen::At(1, 3, Last::Name, true, Some(9))),
    (b"/abs", OPEN, Seen::At(2, 1, Last::Name, false, Some(3))),
    (b"/abs/g", LOOK, Seen::At(3, 1, Last::Name, false, Some(5))),
    (b"d/rel", LOOK, Seen::At(3, 1, Last::Name, false, Some(5))),
    (b"/up/e", LOOK, Seen::At(2, 1, Last::Name, false, Some(3))),
    (b"/ds", LOOK, Seen::At(1, 1, Last::Name, true, Some(2))),
    (b"/fs", LOOK, Seen::Refused(Errno::ENOTDIR)),
    (b"/fs", OPEN, Seen::At(2, 1, Last::Name, true, Some(4))),
    (b"/self", LOOK, Seen::Refused(Errno::ELOOP)),
    (b"/self", LINK, Seen::At(1, 4, Last::Name, false, Some(14))),
    (b"/gone", LOOK, Seen::Refused(Errno::ENOENT)),
    (b"/gone", OPEN, Seen::At(1, 7, Last::Name, false, None)),
    (b"/gone", NAME, Seen::At(1, 4, Last::Name, false, Some(15))),
    (b"/new", LOOK, Seen::Refused(Errno::ENOENT)),
    (b"/new", LINK, Seen::Refused(Errno::ENOENT)),
    (b"d/new", NAME, Seen::At(2, 3, Last::Name, false, None)),
    (b"d/new/", OPEN, Seen::At(2, 3, Last::Name, true, None)),
    (b"d/f/", NAME, Seen::At(2, 1, Last::Name, true, Some(4))),
    (b"/new/x", OPEN, Seen::Refused(Errno::ENOENT)),
    (b"/proc/1", LOOK, Seen::Refused(Errno::ENOENT)),
];

#[test]
fn paths_lead_where_they_must(rt: HostRuntime) -> Result<(), Fail> {
    let alloc = rt.alloc();
    let tree = linked_tree(alloc)?.ok_or("no tree")?;
    for (path, mode, want) in WALKS {
        let answer = walk_from(alloc, &tree, ROOT, path, *mode, &mut nothing());
        assert!(rt; answer == *want);
    }
    let name = vec![in alloc; b'x'; 256]?;
    assert!(rt; name.len() == 256);
    let short = walk_from(alloc, &tree, ROOT, &name[1..], NAME, &mut nothing());
    assert!(rt; short == Seen::At(1, 255, Last::Name, false, None));
    let long = walk_from(alloc, &tree, ROOT, &name, NAME, &mut nothing());
    assert!(rt; long == Seen::Refused(Errno::ENAMETOOLONG));
    Ok(())
}

/// Paths from the directory `/d/e`, each with a mode, the length of the longest name that is reached, and whether a name was looked up
/// in the process directory.
const REACHED: &[(&[u8], WalkMode, u64, bool)] = &[
    (b"/", LOOK, 1, false),
    (b".", LOOK, 4, false),
    (b"..", LOOK, 4, false),
    (b"/d/e/g", LOOK, 6, false),
    (b"/d/e/g/x", LOOK, 6, false),
    (b"/d/missing", LOOK, 2, false),
    (b"/d/missing", OPEN, 10, false),
    (b"/abs", LINK, 4, false),
    (b"/d/rel", LOOK, 6, false),
    (b"/proc/1234567", LOOK, 5, true),
    (b"/proc/..", LOOK, 5, false),
];

/// The guest name of an inode over the host's own view.
fn called(
    alloc: Global,
    tree: &Tree,
    ino: Ino,
    remembered: Option<(Ino, &[u8])>,
) -> Result<Option<Bytes>, NoMemory> {
    plain_stands();
    trees_are_kept(tree);
    guest_name(alloc, &Plain::new(), tree, HostMount, ino, remembered)
}

#[test]
fn the_longest_name_that_is_reached_is_told(rt: HostRuntime) -> Result<(), Fail> {
    let tree = linked_tree(rt.alloc())?.ok_or("no tree")?;
    for (path, mode, longest, met_proc) in REACHED {
        let mut reach = nothing();
        let _answer = walk_from(rt.alloc(), &tree, 3, path, *mode, &mut reach);
        assert!(rt; (reach.longest, reach.met_proc) == (*longest, *met_proc));
    }
    // What was reached before stays.
    let mut reach = Reach {
        longest: 9,
        met_proc: true,
    };
    let _answer = walk_from(rt.alloc(), &tree, ROOT, b"/d", LOOK, &mut reach);
    assert!(rt; (reach.longest, reach.met_proc) == (9, true));
    let file = called(rt.alloc(), &tree, 5, Some((3, b"g")))?.ok_or("no name of a file")?;
    assert!(rt; file.as_slice() == b"/d/e/g".as_slice());
    Ok(())
}

//! What the calls on remembered owners and modes answer with ample memory.

use pt_ident::{Change, Owners, Shown};
use std::test::Fail;

const FILE: Shown = Shown {
    uid: 0,
    gid: 0,
    mode: 0o100_644,
};

/// The user, the group and the mode that a file shows with this inode.
fn shown(owners: &Owners, inode: u64) -> (u32, u32, u32) {
    let shown = owners.shown(inode, FILE);
    (shown.uid, shown.gid, shown.mode)
}

#[test]
fn owners_and_modes_are_remembered_by_inode(rt: HostRuntime) -> Result<(), Fail> {
    let mut owners = Owners::new(rt.alloc());
    assert!(rt; shown(&owners, 20) == (0, 0, 0o100_644));
    owners.note(20, Change::Own { uid: 5, gid: 6 })?;
    let group = Change::Own {
        uid: u32::MAX,
        gid: 7,
    };
    owners.note(20, group)?;
    owners.note(20, Change::Mode { bits: 0o600 })?;
    assert!(rt; shown(&owners, 20) == (5, 7, 0o100_600));
    assert!(rt; shown(&owners, 21) == (0, 0, 0o100_644));
    // Of a mode the low 12 bits count.
    owners.note(20, Change::Mode { bits: u16::MAX })?;
    assert!(rt; shown(&owners, 20) == (5, 7, 0o107_777));
    Ok(())
}

//! Names in the process directory, with ample memory: contracts allow want of it, and these rows show that it isn't
//! answered.

use kr_procfs::below::kr_view::ProcAt;
use kr_procfs::{number_of, pipe_text, proc_name};
use std::test::Fail;

#[test]
fn names_are_given_and_read(rt: HostRuntime) -> Result<(), Fail> {
    let alloc = rt.alloc();
    let rows: [(ProcAt, &[u8]); 7] = [
        (ProcAt::SelfLink, b"self"),
        (ProcAt::Dir(2), b"2"),
        (ProcAt::Cwd(2), b"cwd"),
        (ProcAt::Root(2), b"root"),
        (ProcAt::Exe(2), b"exe"),
        (ProcAt::FdDir(2), b"fd"),
        (ProcAt::Fd(2, 1023), b"1023"),
    ];
    for (at, expected) in rows {
        let name = proc_name(alloc, at)?;
        assert!(rt; name.as_slice() == expected);
    }
    let text = pipe_text(alloc, 12)?;
    assert!(rt; text.as_slice() == b"pipe:[12]".as_slice());
    assert!(rt; number_of(b"0") == Some(0));
    assert!(rt; number_of(b"4294967295") == Some(u32::MAX));
    assert!(rt; number_of(b"4294967296").is_none());
    assert!(rt; number_of(b"02").is_none());
    assert!(rt; number_of(b"+2").is_none());
    assert!(rt; number_of(b"").is_none());
    Ok(())
}

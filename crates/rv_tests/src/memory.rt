use rv_loops::below::{Rights, Room, Space, StoreFault, Use};
use std::process::Abort;
use std::test::Fail;

const WRITE: Rights = Rights {
    r: true,
    w: true,
    x: false,
};

fn assert_text(rt: &impl Abort, space: &mut Space<0>, at: u64, text: &[u8; 4]) -> Result<(), Fail> {
    let mut four = [0; 4];
    space.read(at, &mut four, Use::Read)?;
    assert!(rt; four.as_slice() == text.as_slice());
    Ok(())
}

// A write over three shared pages takes its copies before it moves a byte: where memory is wanting for one of
// them, also for the last, none has moved. With ample memory all have.
#[test]
fn a_write_that_finds_no_memory_moves_nothing(rt: HostRuntime) -> Result<(), Fail> {
    let mut room = Room::new();
    let mut space: Space<0> = Space::new(rt.alloc());
    space.map(&mut room, 0x1000, 3, WRITE)?;
    space.write(0x1000, &[1])?;
    space.write(0x2000, &[1])?;
    space.write(0x3000, &[1])?;
    let mut child = space.fork(&mut room)?;
    let written = child.write(0x1ffc, &[2; 4104]);
    let byte = match written {
        Ok(()) => 2,
        Err(fault) => {
            assert!(rt; matches!(fault, StoreFault::NoMemory));
            0
        }
    };
    for at in [0x1ffc, 0x2ffc, 0x3000] {
        let first = if byte == 0 && at == 0x3000 { 1 } else { byte };
        assert_text(&rt, &mut child, at, &[first, byte, byte, byte])?;
    }
    assert_text(&rt, &mut space, 0x1ffc, &[0; 4])?;
    Ok(())
}

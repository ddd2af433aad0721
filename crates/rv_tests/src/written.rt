use elf_load::below::check;
use guests::below::elf_write::write;
use std::test::Fail;

// A file of code and data; data on the next free page behind code of these sizes; and a file without data.
#[test]
fn written_files_have_their_segments(rt: HostRuntime) -> Result<(), Fail> {
    let file = write(rt.alloc(), &[0x73, 0, 0, 0], b"data", 5)?;
    let plan = check(file.as_slice()).ok().expect(&rt, "accepted");
    assert!(rt; (plan.entry, plan.count) == (0x10000, 2));
    let [text, data, ..] = plan.segments;
    assert!(rt; (text.at, text.file, text.memory, text.flags) == (0x10000, 4, 4, 5));
    assert!(rt; (data.at, data.file, data.memory, data.flags) == (0x11000, 4, 9, 6));

    let code = [0x13; 4097];
    let table = [(1, 0x11000), (4096, 0x11000), (4097, 0x12000)];
    for (size, at) in table {
        let file = write(rt.alloc(), &code[..size], b"", 1)?;
        let plan = check(file.as_slice()).ok().expect(&rt, "accepted");
        assert!(rt; plan.segments[1].at == at, "code of {size} bytes");
    }

    let file = write(rt.alloc(), &[1, 2, 3], b"", 0)?;
    let plan = check(file.as_slice()).ok().expect(&rt, "accepted");
    assert!(rt; plan.count == 1);
    Ok(())
}

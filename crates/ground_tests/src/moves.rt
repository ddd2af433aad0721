//! Sinks in memory with ample memory, and sources and sinks over files: what contracts leave open.

use pr_io::below::{Bytes, NoMemory};
use pr_io::{
    CleanSink, Cut, Failed, FileSink, FileSource, MemSink, PutFault, ReplacingSink, Sink, Source,
};
use std::alloc::Global;
use std::io::{self, ErrorKind, Read, Write};
use std::test::Fail;
use std::{env, fs, process};

// What calls with room for 4 bytes gave: the bytes of each, or `!` where it failed, and then `|`.
fn answers<S: Source>(alloc: Global, source: &mut S, calls: usize) -> Result<Bytes, NoMemory> {
    let mut given = Bytes::new(alloc);
    for _ in 0..calls {
        let mut buf = [b'.'; 4];
        match source.take(&mut buf) {
            Ok(n) => given.append(&buf[..n])?,
            Err(Failed) => given.append(b"!")?,
        }
        given.append(b"|")?;
    }
    Ok(given)
}

// What the puts of these bytes answered: `.` where all were taken, `!` where it failed.
fn put_all<S: Sink>(alloc: Global, sink: &mut S, parts: &[&[u8]]) -> Result<Bytes, NoMemory> {
    let mut given = Bytes::new(alloc);
    for part in parts {
        match sink.put(part) {
            Ok(()) => given.append(b".")?,
            Err(PutFault::Failed) => given.append(b"!")?,
            Err(PutFault::NoMemory) => return Err(NoMemory),
        }
    }
    Ok(given)
}

#[test]
fn sinks_in_memory_keep_what_they_take(rt: HostRuntime) -> Result<(), Fail> {
    let alloc = rt.alloc();
    let parts: [&[u8]; 5] = [b"ab", b"cde", b"f", b"", b"gh"];
    for (keep, want) in [(0, b"abgh".as_slice()), (1, b"abcfgh"), (9, b"abcdefgh")] {
        let mut sink = MemSink::torn(alloc, vec![in alloc; 1, 2]?, keep);
        let given = put_all(alloc, &mut sink, &parts)?;
        assert!(rt; given.as_slice() == b".!!..".as_slice());
        assert!(rt; sink.got() == want, "{keep}");
    }
    let mut sink = MemSink::new(alloc, vec![in alloc; 1, 3]?);
    let given = put_all(alloc, &mut sink, &parts)?;
    assert!(rt; given.as_slice() == b".!.!.".as_slice());
    assert!(rt; sink.got() == b"abfgh".as_slice());
    let mut sink = CleanSink::new(alloc);
    let given = put_all(alloc, &mut sink, &parts)?;
    assert!(rt; given.as_slice() == b".....".as_slice());
    assert!(rt; sink.got() == b"abcdefgh".as_slice());
    Ok(())
}

#[test]
fn the_file_forms_move_bytes_through_a_file(rt: HostRuntime) -> Result<(), Fail> {
    let name = format!(in rt.alloc(); "ground_tests-{}", process::id(rt.process()))?;
    let path = env::temp_dir(&rt)?.join(rt.alloc(), name.as_str())?;
    let mut sink = FileSink::over(Some(fs::create(&rt, path.as_path())?));
    let put = put_all(rt.alloc(), &mut sink, &[b"abc", b"", b"defg"])?;
    let mut source = FileSource::over(Some(fs::open(&rt, path.as_path())?));
    let given = answers(rt.alloc(), &mut source, 3)?;
    // A file that is open for reading alone takes no byte, and one for writing alone gives none.
    let mut no_sink = FileSink::over(Some(fs::open(&rt, path.as_path())?));
    let no_put = put_all(rt.alloc(), &mut no_sink, &[b"h"])?;
    let mut no_source = FileSource::over(Some(fs::create(&rt, path.as_path())?));
    let none = answers(rt.alloc(), &mut no_source, 1)?;
    fs::remove_file(&rt, path.as_path())?;
    assert!(rt; put.as_slice() == b"...".as_slice());
    assert!(rt; given.as_slice() == b"abcd|efg||".as_slice());
    assert!(rt; no_put.as_slice() == b"!".as_slice());
    assert!(rt; none.as_slice() == b"!|".as_slice());
    Ok(())
}

// A file whose first cut fails, and whose writes fail but between its second cut and its third.
#[derive(Drop)]
struct Stubborn {
    cuts: u8,
}

impl Write for Stubborn {
    fn write(&mut self, buf: &[u8]) -> io::Result<usize> {
        if self.cuts == 2 {
            Ok(buf.len())
        } else {
            Err(ErrorKind::Other.into())
        }
    }

    fn flush(&mut self) -> io::Result<()> {
        Ok(())
    }
}

impl Cut for Stubborn {
    fn cut(&mut self) -> io::Result<()> {
        self.cuts = self.cuts.saturating_add(1);
        if self.cuts == 1 {
            return Err(ErrorKind::Other.into());
        }
        Ok(())
    }
}

// A file of the system whose first call is interrupted. Then a read gives one byte, one fails, and
// the end comes; each write takes one byte until there is no room, and a flush fails where asked.
#[derive(Drop)]
struct Halting {
    calls: u8,
    room: u8,
    flush_fails: bool,
}

impl Halting {
    fn new(room: u8, flush_fails: bool) -> Halting {
        Halting {
            calls: 0,
            room,
            flush_fails,
        }
    }
}

impl Read for Halting {
    fn read(&mut self, buf: &mut [u8]) -> io::Result<usize> {
        self.calls = self.calls.saturating_add(1);
        match self.calls {
            1 => Err(ErrorKind::Interrupted.into()),
            2 if !buf.is_empty() => {
                buf[0] = b'a';
                Ok(1)
            }
            3 => Err(ErrorKind::Other.into()),
            _ => Ok(0),
        }
    }
}

impl Write for Halting {
    fn write(&mut self, buf: &[u8]) -> io::Result<usize> {
        self.calls = self.calls.saturating_add(1);
        if self.calls == 1 {
            return Err(ErrorKind::Interrupted.into());
        }
        if self.room == 0 || buf.is_empty() {
            return Ok(0);
        }
        self.room -= 1;
        Ok(1)
    }

    fn flush(&mut self) -> io::Result<()> {
        if self.flush_fails {
            Err(ErrorKind::Other.into())
        } else {
            Ok(())
        }
    }
}

#[test]
fn calls_and_cuts_are_made_again(rt: HostRuntime) -> Result<(), Fail> {
    let mut source = FileSource::over(Some(Halting::new(0, false)));
    let given = answers(rt.alloc(), &mut source, 3)?;
    assert!(rt; given.as_slice() == b"a|!||".as_slice());
    // A put is made whole or failed.
    let parts: [&[u8]; 4] = [b"abc", b"de", b"f", b""];
    for (flush_fails, want) in [(false, b"..!."), (true, b"!!!!")] {
        let mut sink = FileSink::over(Some(Halting::new(5, flush_fails)));
        let given = put_all(rt.alloc(), &mut sink, &parts)?;
        assert!(rt;
            given.as_slice() == want.as_slice(),
            "flush_fails {flush_fails}"
        );
    }
    // A cut that fails is made again, and then no more.
    let mut sink = ReplacingSink::over(Some(Stubborn { cuts: 0 }));
    let given = put_all(rt.alloc(), &mut sink, &[b"a", b"b", b"c"])?;
    assert!(rt; given.as_slice() == b"!..".as_slice());
    Ok(())
}

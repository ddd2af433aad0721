use crate::host::{Done, Reply, run_probe};
use pr_gen::{Arg, ProbeStep, Show, Who};
use rv_cpu::below::pr_base::{Bytes, NoMemory, Texts};
use rv_cpu::below::rv_mem::{Space, Use};
use std::alloc::Global;
use std::process::Abort;
use std::test::Fail;

/// A call whose answer is shown so.
fn call(number: u16, args: [Arg; 6], show: Show) -> ProbeStep {
    ProbeStep::Call {
        number,
        args,
        who: Who::All,
        show,
    }
}

/// A call without arguments that these processes make.
fn call_by(number: u16, who: Who) -> ProbeStep {
    ProbeStep::Call {
        number,
        args: [
            Arg::Num(0),
            Arg::Num(0),
            Arg::Num(0),
            Arg::Num(0),
            Arg::Num(0),
            Arg::Num(0),
        ],
        who,
        show: Show::Nothing,
    }
}

/// Arguments of a call that fills the buffer.
fn filling() -> [Arg; 6] {
    [
        Arg::Num(3),
        Arg::Buf,
        Arg::Num(0),
        Arg::Num(0),
        Arg::Num(0),
        Arg::Num(0),
    ]
}

/// What the probe showed, each showing followed by a bar.
fn joined(alloc: Global, shown: &Texts) -> Result<Bytes, NoMemory> {
    let mut all = Bytes::new(alloc);
    for k in 0..shown.len() {
        if let Some(text) = shown.at(k) {
            all.append(text)?;
        }
        all.append(b"|")?;
    }
    Ok(all)
}

/// The numbers of the calls that were made.
fn numbers(alloc: Global, done: &Done) -> Result<Vec<u64>, Fail> {
    let mut numbers = Vec::new(alloc);
    for call in &done.calls {
        numbers.push(call.number)?;
    }
    Ok(numbers)
}

#[test]
fn answers_are_shown_in_decimal(rt: HostRuntime) -> Result<(), Fail> {
    let steps = [
        call(1000, filling(), Show::Number),
        call(1000, filling(), Show::Number),
        call(1000, filling(), Show::Number),
        call(1000, filling(), Show::Number),
        call(1000, filling(), Show::Number),
        call(1000, filling(), Show::Nothing),
    ];
    let replies: [Reply; 6] = [
        (i64::MIN, b""),
        (-38, b""),
        (0, b""),
        (10, b""),
        (i64::MAX, b""),
        (5, b""),
    ];
    let done = run_probe(&rt, &steps, &replies)?;
    let expected = b"-9223372036854775808\n|-38\n|0\n|10\n|9223372036854775807\n|";
    assert!(rt; joined(rt.alloc(), &done.shown)?.as_slice() == expected.as_slice());
    Ok(())
}

// A full buffer, one that is asked to show more than all, a shorter content over a longer one, which is
// still there afterwards, none at all, and an error.
#[test]
fn the_buffer_is_shown_and_left_as_it_was(rt: HostRuntime) -> Result<(), Fail> {
    let steps = [
        call(1000, filling(), Show::Content),
        call(1000, filling(), Show::Content),
        call(1000, filling(), Show::Content),
        call(1000, filling(), Show::Content),
        call(1000, filling(), Show::Content),
        call(1000, filling(), Show::Content),
        call(1000, filling(), Show::Content),
    ];
    let full = [b'f'; 4096];
    let replies: [Reply; 7] = [
        (4096, &full),
        (4097, b""),
        (6, b"abcdef"),
        (2, b"xy"),
        (6, b""),
        (0, b""),
        (-9, b""),
    ];
    let done = run_probe(&rt, &steps, &replies)?;
    let mut expected = Bytes::new(rt.alloc());
    expected.append(&full)?;
    expected.append(b"\n|")?;
    expected.append(&full)?;
    expected.append(b"\n|abcdef\n|xy\n|xycdef\n|\n|-9\n|")?;
    assert!(rt; joined(rt.alloc(), &done.shown)?.as_slice() == expected.as_slice());
    Ok(())
}

// Before a clone a probe isn't a child; afterwards it is one where the last clone answered 0.
#[test]
fn steps_are_made_by_those_that_they_name(rt: HostRuntime) -> Result<(), Fail> {
    let steps = [
        call_by(1000, Who::Parent),
        call_by(1001, Who::Child),
        call_by(220, Who::All),
        call_by(1002, Who::Parent),
        call_by(1003, Who::Child),
        call_by(1004, Who::All),
        call_by(220, Who::All),
        call_by(1005, Who::Parent),
        call_by(1006, Who::Child),
    ];
    let table: [([Reply; 6], [u64; 6]); 3] = [
        (
            [(7, b""), (0, b""), (7, b""), (7, b""), (0, b""), (7, b"")],
            [1000, 220, 1003, 1004, 220, 1006],
        ),
        (
            [(7, b""), (5, b""), (0, b""), (0, b""), (-11, b""), (0, b"")],
            [1000, 220, 1002, 1004, 220, 1005],
        ),
        (
            [(0, b""), (0, b""), (7, b""), (0, b""), (6, b""), (0, b"")],
            [1000, 220, 1003, 1004, 220, 1005],
        ),
    ];
    for (replies, made) in table {
        let done = run_probe(&rt, &steps, &replies)?;
        assert!(rt; numbers(rt.alloc(), &done)?.as_slice() == made.as_slice());
    }
    Ok(())
}

fn texts(alloc: Global, list: &[&[u8]]) -> Result<Texts, NoMemory> {
    let mut texts = Texts::new(alloc);
    for text in list {
        texts.push(Bytes::copy(alloc, text)?)?;
    }
    Ok(texts)
}

/// The address that stands at an address.
fn address_at<R: Abort>(rt: &R, memory: &mut Space<0>, at: u64) -> u64 {
    let mut bytes = [0; 8];
    assert!(rt; memory.read(at, &mut bytes, Use::Read).is_ok());
    u64::from_le_bytes(bytes)
}

/// The text at an address.
fn text_at<R: Abort>(rt: &R, memory: &mut Space<0>, at: u64) -> Bytes {
    memory.text_at(at, 100).ok().expect(rt, "a text")
}

/// Three calls with arguments of every kind behind one of a child, each with the buffer in a1.
fn steps_with_arguments(alloc: Global) -> Result<[ProbeStep; 5], Fail> {
    Ok([
        ProbeStep::SetSp(0x20_0001_0000),
        call_by(1000, Who::Child),
        call(
            1001,
            [
                Arg::Num(100u64.wrapping_neg()),
                Arg::Buf,
                Arg::Num(65536),
                Arg::Num(0x7fff_f7ff),
                Arg::Num(0x7fff_f800),
                Arg::Num(0xfedc_ba98_7654_3210),
            ],
            Show::Nothing,
        ),
        call(
            1002,
            [
                Arg::Answer(2),
                Arg::Buf,
                Arg::Answer(0),
                Arg::Answer(1),
                Arg::Num(2048),
                Arg::Num(2047),
            ],
            Show::Nothing,
        ),
        call_with_texts(alloc)?,
    ])
}

fn call_with_texts(alloc: Global) -> Result<ProbeStep, Fail> {
    let args = [
        Arg::Text(Bytes::copy(alloc, b"eight by")?),
        Arg::Buf,
        Arg::List(texts(alloc, &[b"one", b"", b"three"])?),
        Arg::List(Texts::new(alloc)),
        Arg::Text(Bytes::copy(alloc, b"/last")?),
        Arg::Answer(3),
    ];
    Ok(call(1003, args, Show::Nothing))
}

/// The calls of these steps, which are answered by -2 with data, by 77 and by 0.
fn done_with_arguments<R: Abort + AllocGlobal>(rt: &R) -> Result<Done, Fail> {
    let steps = steps_with_arguments(rt.alloc())?;
    let replies: [Reply; 3] = [(-2, b"data"), (77, b""), (0, b"")];
    run_probe(rt, &steps, &replies)
}

#[test]
fn arguments_stand_in_registers_and_memory(rt: HostRuntime) -> Result<(), Fail> {
    let mut done = done_with_arguments(&rt)?;
    let [first, second, third] = *done.calls.as_slice() else {
        panic!(&rt; "three calls");
    };
    let [text, buf, list, empty, last, answer] = third.args;
    assert!(rt; (first.number, first.sp) == (1001, 0x20_0001_0000));
    let numbers = [
        0xffff_ffff_ffff_ff9c,
        buf,
        65536,
        0x7fff_f7ff,
        0x7fff_f800,
        0xfedc_ba98_7654_3210,
    ];
    assert!(rt; first.args == numbers);
    assert!(rt; second.args == [0xffff_ffff_ffff_fffe, buf, 0, 0, 2048, 2047]);
    assert!(rt; answer == 77);
    let memory = &mut done.memory;
    assert!(rt; text_at(&rt, memory, buf).as_slice() == b"data".as_slice());
    assert!(rt; text_at(&rt, memory, text).as_slice() == b"eight by".as_slice());
    assert!(rt; text_at(&rt, memory, last).as_slice() == b"/last".as_slice());
    for (k, text) in [b"one".as_slice(), b"", b"three"].iter().enumerate() {
        let at = address_at(&rt, memory, list.wrapping_add(8 * k as u64));
        assert!(rt; text_at(&rt, memory, at).as_slice() == *text);
    }
    assert!(rt; address_at(&rt, memory, list.wrapping_add(24)) == 0);
    assert!(rt; address_at(&rt, memory, empty) == 0);
    Ok(())
}

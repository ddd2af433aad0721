//! A machine that runs a probe and answers its calls from a list.

use elf_load::below::check;
use elf_load::{Image, load};
use pr_gen::{ProbeStep, is_probe, probe};
use rv_cpu::below::pr_base::{Bytes, Texts};
use rv_cpu::below::rv_mem::{Room, Space, Use};
use rv_cpu::{Event, Regs, run};
use std::process::Abort;
use std::test::Fail;

/// The numbers of `write` and `exit`.
const WRITE: u64 = 64;

const EXIT: u64 = 93;

/// The most bytes that one call of `write` shows here.
const MOST_SHOWN: u64 = 5000;

/// A call that a probe made, with the stack pointer of that moment.
#[derive(Clone, Copy)]
pub struct Call {
    pub number: u64,
    pub args: [u64; 6],
    pub sp: u64,
}

/// What a call answers, and the bytes that it leaves at the address in a1.
pub type Reply<'a> = (i64, &'a [u8]);

/// What a probe did.
#[derive(Drop)]
pub struct Done {
    /// Its calls but for those of `write` and `exit`.
    pub calls: Vec<Call>,
    /// What each call of `write` showed.
    pub shown: Texts,
    /// Its memory at the end.
    pub memory: Space<0>,
}

fn call_of(regs: &Regs) -> Call {
    let x = &regs.x;
    Call {
        number: x[17],
        args: [x[10], x[11], x[12], x[13], x[14], x[15]],
        sp: x[2],
    }
}

/// The image of a probe, without arguments and environment.
fn image_of<R: Abort + AllocGlobal>(rt: &R, steps: &[ProbeStep]) -> Result<Image<0>, Fail> {
    assert!(rt; is_probe(steps));
    let file = probe(rt.alloc(), steps)?;
    let bytes = file.as_slice();
    let Ok(plan) = check(bytes) else {
        return Err(Fail::from("not accepted"));
    };
    let mut room = Room::new();
    let none = Texts::new(rt.alloc());
    let ids = [1000, 1000, 100, 100];
    match load(rt.alloc(), &mut room, bytes, &plan, &none, &none, ids) {
        Ok(image) => Ok(image),
        Err(_fault) => Err(Fail::from("not loaded")),
    }
}

/// Runs a probe to its end, at which it must exit with 0. Calls but for those of `write` and `exit` are
/// answered in order.
pub fn run_probe<R: Abort + AllocGlobal>(
    rt: &R,
    steps: &[ProbeStep],
    replies: &[Reply],
) -> Result<Done, Fail> {
    let image = image_of(rt, steps)?;
    let mut memory = image.mem;
    let mut regs = image.regs;
    let mut calls = Vec::new(rt.alloc());
    let mut shown = Texts::new(rt.alloc());
    for _ in 0..1000 {
        let (event, _) = run(&mut regs, &mut memory, 100_000)?;
        assert!(rt; matches!(event, Event::Call));
        let call = call_of(&regs);
        let [first, at, count, ..] = call.args;
        if call.number == EXIT {
            assert!(rt; first == 0);
            break;
        }
        if call.number == WRITE {
            assert!(rt; first == 1 && count <= MOST_SHOWN);
            let mut bytes = vec![in rt.alloc(); 0; count as usize]?;
            assert!(rt; memory.read(at, &mut bytes, Use::Read).is_ok());
            shown.push(Bytes::from(bytes))?;
            regs.x[10] = count;
        } else {
            let (answer, fill) = replies.get(calls.len()).expect(rt, "a reply");
            assert!(rt; memory.write(at, fill).is_ok());
            regs.x[10] = answer.cast_unsigned();
            calls.push(call)?;
        }
        regs.pc = regs.pc.wrapping_add(4);
    }
    Ok(Done {
        calls,
        shown,
        memory,
    })
}

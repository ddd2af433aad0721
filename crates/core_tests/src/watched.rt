//! Guests whose calls are watched: what is done at their stops, and which stops come. All of it was worked out by hand.
ghost use Rattle.std.specs.Prelude.{IfOk};
ghost use Rattle.kr_loose.specs.kr_core.Kernel.{HasNoTurn};

use crate::noting::Noting;
use crate::run::run;
use crate::stage::listed;
use crate::start::asked;
use guests::{coded, guest};
use kr_loose::below::{Bytes, Kernel, Plain};
use std::alloc::Global;
use std::process::Abort;
use std::test::Fail;

const TURNS: u32 = 1000;

/// The guest is `/p` and `/d/p`.
const HOST: &[u8] = b"user 1000 1000
d 755 1000 1000 /
x 755 1000 1000 /p
f 644 1000 1000 /f 66
f 644 1000 1000 /e 73776170
d 755 1000 1000 /d
h /d/p /p
d 755 1000 1000 /d/d
p /proc
";

/// A guest and what is seen of it, where the process with the lowest number runs whenever it is ready.
const WATCHED: &[(&str, &str)] = &[
    // Four calls that are shown by another one each, one whose path leads to the root, and the one that asks for the notes.
    (
        "getpid;getppid;openat at /f;bytes read 3 buf 10;quiet chdir /;bytes notes 0 buf",
        "77\n2\n3\nswap\ne2 x2 e2 x2 e2 x2 e2 x2 e2 x2=4 e2 x2 e2 x2 e2 x2 e2 x2/=1 e2 x2 \nover 0",
    ),
    // A call that waits has no second stop, and another first one when it goes on; a child has no stop behind the call that made it,
    // and a process that exits none behind that.
    (
        "quiet pipe2 buf 0;quiet clone 17;parent quiet read 3 buf 1;child quiet write 4 'x 1;\
         parent quiet wait4 -1 0 0 0;parent bytes notes 0 buf",
        "e2 x2 e2 b2-3 x2 e2 e3 x3 e2 x2 e2 e3 g3 e2 x2 e2 x2 \nover 0",
    ),
    // One that dies of the signal of a pipe has none either.
    (
        "quiet clone 17;child quiet pipe2 buf 0;child quiet close 3;child quiet write 4 buf 1;\
         parent quiet wait4 -1 0 0 0;parent bytes notes 0 buf",
        "e2 b2-3 x2 e2 e3 x3 e3 x3 e3 g3 e2 x2 e2 x2 \nover 0",
    ),
    // A program that takes the place of another begins behind the second stop. It executes itself once.
    (
        "quiet chdir ./d;quiet execve ./p 0 0;bytes notes 0 buf",
        "e2 x2=5 e2 x2 e2 x2=6 e2 x2 e2 x2 \nover 0",
    ),
    // The inode to which a path led, of the descriptor and of the working directory in a path's place; none of a path that leads nowhere, of
    // the console, of a pipe, of the process directory and of what is in it, and of a call without any.
    (
        "quiet fchmodat at /d/d 448;quiet openat at /f;quiet fchown @1 -1 -1;quiet chdir /d;quiet fchownat at ' -1 -1 4096;\
         quiet newfstatat at /d/p buf 0;quiet newfstatat at /none buf 0;quiet fstat 0 buf;quiet pipe2 buf 0;quiet fstat 4 buf;\
         quiet newfstatat at /proc buf 0;quiet newfstatat at /proc/self buf 0;bytes notes 0 buf",
        "e2 x2=6 e2 x2=4 e2 x2=4 e2 x2=5 e2 x2=5 e2 x2=2 e2 x2 e2 x2 e2 x2 e2 x2 e2 x2 e2 x2 e2 x2 \nover 0",
    ),
];

/// A child dies of ebreak; its parent waits for it, asks for the notes and puts them out.
pub const EBREAK: &[u32] = &[
    0x0dc0_0893, // addi a7, zero, 220
    0x0110_0513, // addi a0, zero, 17
    0x0000_0593, // addi a1, zero, 0
    0x0000_0073, // ecall
    0x0005_1463, // bne a0, zero, .+8
    0x0010_0073, // ebreak
    0x1040_0893, // addi a7, zero, 260
    0xfff0_0513, // addi a0, zero, -1
    0x0000_0593, // addi a1, zero, 0
    0x0000_0613, // addi a2, zero, 0
    0x0000_0693, // addi a3, zero, 0
    0x0000_0073, // ecall
    0x3e80_0893, // addi a7, zero, 1000
    0xe001_0593, // addi a1, sp, -512
    0x0000_0073, // ecall
    0x0005_0613, // addi a2, a0, 0
    0xe001_0593, // addi a1, sp, -512
    0x0010_0513, // addi a0, zero, 1
    0x0400_0893, // addi a7, zero, 64
    0x0000_0073, // ecall
    0x05d0_0893, // addi a7, zero, 93
    0x0000_0513, // addi a0, zero, 0
    0x0000_0073, // ecall
];

/// A kernel over that listing whose calls are noted; its input is `abcd`.
pub fn noted<const M: u8>(alloc: Global, elf: &[u8]) -> Result<Kernel<Plain, Noting, M>, Fail>
    ensures { IfOk result (λ kernel. HasNoTurn kernel) }
{
    let (tree, user) = listed(alloc, HOST, elf)?;
    let places = Plain::new();
    let first = asked(alloc, &places, &tree, user)?;
    let input = Bytes::copy(alloc, b"abcd")?;
    let noting = Noting::new(alloc);
    match Kernel::<Plain, Noting, M>::start(alloc, places, noting, tree, user, input, first) {
        Ok(kernel) => Ok(kernel),
        Err(_fault) => Err(Fail::from("no start")),
    }
}

/// What is seen of a guest.
fn seen<const M: u8>(alloc: Global, elf: &[u8]) -> Result<Bytes, Fail> {
    let mut kernel = noted::<M>(alloc, elf)?;
    Ok(run(alloc, &mut kernel, TURNS)?)
}

/// Compares what is seen of a guest, without marks and with them.
fn compare<R: Abort>(rt: &R, alloc: Global, elf: &[u8], wanted: &str) -> Result<(), Fail> {
    assert!(rt;
        seen::<0>(alloc, elf)?.as_slice() == wanted.as_bytes(),
        "{wanted}"
    );
    assert!(rt;
        seen::<1>(alloc, elf)?.as_slice() == wanted.as_bytes(),
        "{wanted}"
    );
    Ok(())
}

#[test]
fn stops_come_in_their_order(rt: HostRuntime) -> Result<(), Fail> {
    let alloc = rt.alloc();
    for (text, wanted) in WATCHED {
        let elf = guest(alloc, text)?;
        compare(&rt, alloc, elf.as_slice(), wanted)?;
    }
    let elf = coded(alloc, EBREAK, b"")?;
    let wanted = "e2 b2-3 x2 e2 g3 e2 x2 e2 x2 over 0";
    compare(&rt, alloc, elf.as_slice(), wanted)
}

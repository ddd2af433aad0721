//! Guests that run by single steps: which steps come, and what a watcher notes of them. All of it was worked out by hand.
ghost use Rattle.std.specs.Prelude.{◌≡◌, ◌≤◌, ◌<◌, ◌^◌, suc, true, Some, OnOk};
ghost use Rattle.kr_loose.specs.kr_core.Kernel.{HasNoTurn, phase_of};

use crate::watched::{EBREAK, noted};
use guests::coded;
use kr_loose::below::{Bytes, Kernel, NoMemory, Phase, Places, Stops};
use std::alloc::Global;
use std::process::Abort;
use std::test::Fail;

const STEPS: u32 = 1000;

const FUEL: u32 = 1000;

/// The steps of that guest, whose parent waits for its child, and what was noted of them: a call that waits is tried again without another first
/// stop, the instruction that kills counts, and the call that ends its process has no second stop.
const EBREAK_STEPS: &str =
    "i3 e c x i6 e w i2 c x i2 e c x i4 e c x i2 e c e2 b2-3 x2 e2 g3 x2 e2 x2 ";

/// An execve(2) whose path can't be read, and an exit.
const EXECVE: &[u32] = &[
    0x0dd0_0893, // addi a7, zero, 221
    0x0000_0513, // addi a0, zero, 0
    0x0000_0593, // addi a1, zero, 0
    0x0000_0613, // addi a2, zero, 0
    0x0000_0073, // ecall
    0x05d0_0893, // addi a7, zero, 93
    0x0000_0513, // addi a0, zero, 0
    0x0000_0073, // ecall
];

const EXECVE_STEPS: &str = "i4 exec c x i2 e c ";

/// Makes the next step of a process, and adds which one it was: `i` and how many instructions; `e` for the first stop of a call, and `exec` for
/// that of execve(2); `c` for a call that is done, and `w` for one that waits; `x` for the second stop.
fn step<P: Places, S: Stops, const M: u8>(
    alloc: Global,
    kernel: &mut Kernel<P, S, M>,
    pid: u32,
    phase: Phase,
    steps: &mut Bytes,
) -> Result<(), NoMemory>
    requires whole { kernel.old.whole ≡ true }
    requires few { kernel.old.calls < 2 ^ 31 }
    requires stands { phase_of P.number pid kernel.old ≡ Some phase }
    ensures whole { OnOk result (kernel.new.whole ≡ true) }
    ensures calls { OnOk result (kernel.new.calls ≤ suc kernel.old.calls) }
{
    match phase {
        Phase::Running => {
            let ran = kernel.run_pid(pid, FUEL)?;
            let told = format!(in alloc; "i{ran} ")?;
            steps.append(told.as_bytes())?;
            Ok(())
        }
        Phase::AtCall => {
            kernel.enter(pid)?;
            let told = if kernel.last_is_exec(pid) {
                "exec "
            } else {
                "e "
            };
            steps.append(told.as_bytes())?;
            Ok(())
        }
        Phase::Entered => {
            let over = kernel.plain(pid)?;
            let told = if over { "c " } else { "w " };
            steps.append(told.as_bytes())?;
            Ok(())
        }
        Phase::Done => {
            kernel.leave(pid)?;
            steps.append(b"x ")?;
            Ok(())
        }
    }
}

/// Makes the next step of the first process that is ready. Tells whether there was one.
fn next<P: Places, S: Stops, const M: u8>(
    alloc: Global,
    kernel: &mut Kernel<P, S, M>,
    steps: &mut Bytes,
) -> Result<bool, NoMemory>
    requires whole { kernel.old.whole ≡ true }
    requires few { kernel.old.calls < 2 ^ 31 }
    ensures whole { OnOk result (kernel.new.whole ≡ true) }
    ensures calls { OnOk result (kernel.new.calls ≤ suc kernel.old.calls) }
{
    let Some(pid) = kernel.picked(0) else {
        return Ok(false);
    };
    match kernel.phase(pid) {
        Some(phase) => {
            step(alloc, kernel, pid, phase, steps)?;
            Ok(true)
        }
        None => Ok(false),
    }
}

/// Makes steps of a new kernel until none can be made, or `STEPS` were: which steps these were, and behind them what was put out.
fn stepped<P: Places, S: Stops, const M: u8>(
    alloc: Global,
    kernel: &mut Kernel<P, S, M>,
) -> Result<Bytes, NoMemory>
    requires { HasNoTurn kernel.old }
{
    let mut steps = Bytes::new(alloc);
    for made in 0..STEPS {
        if !next(alloc, kernel, &mut steps)? {
            steps.append(kernel.out())?;
            return Ok(steps);
        }
    }
    Ok(steps)
}

/// The steps of a guest.
fn seen<const M: u8>(alloc: Global, code: &[u32]) -> Result<Bytes, Fail> {
    let elf = coded(alloc, code, b"")?;
    let mut kernel = noted::<M>(alloc, elf.as_slice())?;
    Ok(stepped(alloc, &mut kernel)?)
}

/// Compares them, without marks and with them.
fn compare<R: Abort>(rt: &R, alloc: Global, code: &[u32], wanted: &str) -> Result<(), Fail> {
    assert!(rt;
        seen::<0>(alloc, code)?.as_slice() == wanted.as_bytes(),
        "{wanted}"
    );
    assert!(rt;
        seen::<1>(alloc, code)?.as_slice() == wanted.as_bytes(),
        "{wanted}"
    );
    Ok(())
}

#[test]
fn steps_come_one_by_one(rt: HostRuntime) -> Result<(), Fail> {
    let alloc = rt.alloc();
    compare(&rt, alloc, EBREAK, EBREAK_STEPS)?;
    compare(&rt, alloc, EXECVE, EXECVE_STEPS)
}

//! Which processes can go on.
ghost use Rattle.std.specs.Prelude.{◌≡◌, ◌<◌, IfSome, length, slice_get, vec_len};
ghost use Rattle.std.specs.Option.{option_and_then, option_map};
ghost use Rattle.kr_perform.specs.kr_calls.Arguments.{int};
ghost use Rattle.kr_perform.specs.kr_model.Asking.{descriptor_number};
ghost use Rattle.kr_perform.specs.kr_model.Known.{known};
ghost use Rattle.kr_perform.specs.kr_model.State.{image_layout};
ghost use Rattle.kr_perform.specs.kr_ops.Meaning.{meaning};
ghost use Rattle.kr_perform.specs.kr_ops.Sound.{IsSound};
ghost use Rattle.kr_steps.specs.Waiting.{child_waits, goes_on, open_waits, picked_process, read_waits, ready_processes, still_waits, write_waits};

use kr_perform::below::{Meant, State, What};
use rv_cpu::below::pr_base::limits::PIPE_BYTES;
use rv_cpu::below::rv_mem::Regs;

/// The register of a call's number.
const A7: usize = 17;

/// The register of its first argument.
const A0: usize = 10;

/// How many bytes a pipe holds.
const PIPE: u32 = PIPE_BYTES as u32;

/// The number of the process that is ready as the `k`-th, counted from 0 in order of their numbers; `None` exactly where there are no more
/// than `k`. A process is ready that doesn't stay at a call that waited, or whose call need not wait any more. No memory is read for it.
pub fn ready<T: Copy, const M: u8>(state: &State<T, M>, k: usize) -> Option<u32>
    requires { IsSound state.now }
    ensures { result ≡ option_map (λ p. p.pid) (slice_get (ready_processes (meaning state.now)) k) }
{
    let mut before = k;
    for at in 0..state.living.len() {
        if goes_on(state, at) {
            if before == 0 {
                return Some(state.living[at].pid);
            }
            before -= 1;
        }
    }
    None
}

/// The number of the process that a turn runs by its pick: that at the place `pick`, modulo their number, among the processes that are
/// ready. `None` exactly where none is ready.
pub fn picked<T: Copy, const M: u8>(state: &State<T, M>, pick: u32) -> Option<u32>
    requires { IsSound state.now }
    ensures { result ≡ option_map (λ p. p.pid) (picked_process (meaning state.now) pick) }
{
    let number = ready_number(state);
    if number == 0 {
        return None;
    }
    ready(state, pick as usize % number)
}

/// How many processes are ready.
fn ready_number<T: Copy, const M: u8>(state: &State<T, M>) -> usize
    requires { IsSound state.now }
    ensures { result ≡ length (ready_processes (meaning state.now)) }
{
    let mut number = 0;
    for at in 0..state.living.len() {
        if goes_on(state, at) {
            number += 1;
        }
    }
    number
}

/// Whether the process at a place of the list can go on.
fn goes_on<T: Copy, const M: u8>(state: &State<T, M>, at: usize) -> bool
    requires sound { IsSound state.now }
    requires within { at < vec_len state.now.living }
    ensures { IfSome (slice_get (meaning state.now).living at) (λ p. result ≡ goes_on (meaning state.now) p) }
{
    let process = &state.living[at];
    if process.waits {
        !still_waits(state, process.pid, &process.regs)
    } else {
        true
    }
}

/// Whether a call that waited has to wait still.
fn still_waits<T: Copy, const M: u8>(state: &State<T, M>, pid: u32, regs: &Regs) -> bool
    requires { IsSound state.now }
    ensures { result ≡ still_waits (known image_layout pid (meaning state.now)) pid regs.now }
{
    match regs.x[A7] {
        63 | 65 => read_waits(state, pid, first_argument(regs)),
        64 | 66 => write_waits(state, pid, first_argument(regs)),
        260 => child_waits(state, pid, first_argument(regs)),
        _ => false,
    }
}

/// The first argument of a call, of 32 bits.
fn first_argument(regs: &Regs) -> i32
    ensures { result ≡ int regs.now 0 }
{
    ((regs.x[A0] % 0x1_0000_0000) as u32).cast_signed()
}

/// What is open under a descriptor of a process.
fn what_at<T: Copy, const M: u8>(state: &State<T, M>, pid: u32, fd: i32) -> Option<What>
    requires { IsSound state.now }
    ensures { result ≡ option_map (λ o. o.what) (option_and_then (known image_layout pid (meaning state.now)).opened (descriptor_number fd)) }
{
    let number = u32::try_from(fd).ok()?;
    let opened = state.opened(pid, number)?;
    Some(opened.what)
}

/// Whether a read waits: the pipe is empty and has a writer.
fn read_waits<T: Copy, const M: u8>(state: &State<T, M>, pid: u32, fd: i32) -> bool
    requires { IsSound state.now }
    ensures { let k = known image_layout pid (meaning state.now) in result ≡ open_waits (read_waits k) k (descriptor_number fd) }
{
    let Some(What::PipeRead(pipe)) = what_at(state, pid, fd) else {
        return false;
    };
    match state.files.pipe_state(pipe) {
        Some(held) => held.bytes == 0 && held.writer,
        None => false,
    }
}

/// Whether a write waits: the pipe is full and has a reader.
fn write_waits<T: Copy, const M: u8>(state: &State<T, M>, pid: u32, fd: i32) -> bool
    requires { IsSound state.now }
    ensures { let k = known image_layout pid (meaning state.now) in result ≡ open_waits (write_waits k) k (descriptor_number fd) }
{
    let Some(What::PipeWrite(pipe)) = what_at(state, pid, fd) else {
        return false;
    };
    match state.files.pipe_state(pipe) {
        Some(held) => PIPE <= held.bytes && held.reader,
        None => false,
    }
}

/// Whether a wait for a child waits: none that it means ended, and one lives.
fn child_waits<T: Copy, const M: u8>(state: &State<T, M>, pid: u32, child: i32) -> bool
    ensures { result ≡ child_waits (known image_layout pid (meaning state.now)) pid child }
{
    let meant = Meant::by(child);
    match state.ended_child(pid, meant) {
        Some(_) => false,
        None => state.has_child(pid, meant),
    }
}

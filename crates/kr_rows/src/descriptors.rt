//! Calls on descriptors.
ghost use Rattle.std.specs.Prelude.{◌≡◌, ◌≢◌, ◌+◌, ◌<◌, ◌^◌, true, false, Some, None, nat_lt, if◌then◌else◌, IfNone, IfSome};
ghost use Rattle.std.specs.Option.{option_and_then, option_map};
ghost use Rattle.kr_seen.specs.kr_model.Asking.{descriptor_number};
ghost use Rattle.kr_seen.specs.kr_model.DescriptorRows.{close_row, dup_row, dup3_row, ioctl_row, pipe2_row, pipe_numbers};
ghost use Rattle.kr_seen.specs.kr_model.declared.outcome.Outcome.TheVariants.{NoMemory as WantOfMemory};
ghost use Rattle.kr_seen.specs.kr_ops.Meaning.{meaning};
ghost use Rattle.kr_seen.specs.kr_ops.Opening.{pair_of, takes_pipe_of};
ghost use Rattle.kr_seen.specs.kr_ops.Sound.{IsServed, IsSound, IsSoundFor};
ghost use Rattle.kr_seen.specs.PerformedRows.{Performs};

use crate::answer::{has, natural, number, open_number, refused};
use bitflags::Flags;
use kr_seen::below::{
    DESCRIPTORS, Errno, FilesRefusal, NoMemory, OpenFlags, Outcome, State, StoreFault,
};
use kr_seen::caller;

/// dup(2): EBADF of a descriptor that isn't open, EMFILE where none is free; the lowest free one.
pub fn dup<T: Copy, const M: u8>(state: &mut State<T, M>, pid: u32, fd: i32) -> Outcome
    requires { IsSound state.old }
    ensures performs { Performs pid (λ k. dup_row k fd) state.old state.new result }
    ensures served { result ≢ WantOfMemory → IsServed state.new }
{
    let Some(fd) = open_number(state, pid, fd) else {
        return refused(Errno::EBADF);
    };
    match state.copy(pid, fd, 0, false) {
        Ok(to) => number(to),
        Err(FilesRefusal::Full) => refused(Errno::EMFILE),
        Err(FilesRefusal::NoMemory) => Outcome::NoMemory,
    }
}

/// dup3(2): EBADF of a descriptor that isn't open, then of a new one that is negative or above 1,023; the new one. It isn't
/// called with equal numbers.
pub fn dup3<T: Copy, const M: u8>(
    state: &mut State<T, M>,
    pid: u32,
    old: i32,
    new: i32,
    flags: u32,
) -> Outcome
    requires sound { IsSound state.old }
    requires other { new ≢ old }
    ensures performs { Performs pid (λ k. dup3_row k old new flags) state.old state.new result }
    ensures served { result ≢ WantOfMemory → IsServed state.new }
{
    let Some(old) = open_number(state, pid, old) else {
        return refused(Errno::EBADF);
    };
    let Some(new) = possible_number(new) else {
        return refused(Errno::EBADF);
    };
    match state.copy_onto(pid, old, new, has(flags, OpenFlags::CLOEXEC.bits())) {
        Ok(()) => number(new),
        Err(NoMemory) => Outcome::NoMemory,
    }
}

/// A number that a descriptor can have, `None` exactly where it is negative or above 1,023.
fn possible_number(fd: i32) -> Option<u32>
    ensures { result ≡ option_and_then (λ n. if nat_lt n 1024 then Some n else None) (descriptor_number fd) }
{
    let number = natural(fd)?;
    if number < DESCRIPTORS {
        Some(number)
    } else {
        None
    }
}

/// close(2): EBADF of a descriptor that isn't open.
pub fn close<T: Copy, const M: u8>(state: &mut State<T, M>, pid: u32, fd: i32) -> Outcome
    requires { IsSound state.old }
    ensures performs { Performs pid (λ k. close_row k fd) state.old state.new result }
    ensures served { IsServed state.new }
{
    let Some(fd) = open_number(state, pid, fd) else {
        return refused(Errno::EBADF);
    };
    state.close(pid, fd);
    number(0)
}

/// ioctl(2): EBADF of a descriptor that isn't open, ENOTTY of every other.
pub fn ioctl<T: Copy, const M: u8>(state: &State<T, M>, pid: u32, fd: i32) -> Outcome
    requires { IsSound state.now }
    ensures { Performs pid (λ k. ioctl_row k fd) state.now state.now result }
{
    match open_number(state, pid, fd) {
        Some(_fd) => refused(Errno::ENOTTY),
        None => refused(Errno::EBADF),
    }
}

/// pipe2(2): EMFILE where there are as many pipes as there may be or fewer than two descriptors are free, EFAULT; both numbers
/// are written, the reader's first.
pub fn pipe2<T: Copy, const M: u8>(
    state: &mut State<T, M>,
    pid: u32,
    buf: u64,
    flags: u32,
) -> Outcome
    requires caller { IsSoundFor pid state.old }
    requires files { state.old.files.table.last_file + 2 < 2 ^ 64 }
    requires pipes { state.old.files.table.last_pipe + 1 < 2 ^ 32 }
    ensures performs { Performs pid (λ k. pipe2_row k buf flags) state.old state.new result }
    ensures served { result ≢ WantOfMemory → IsServed state.new }
{
    let Some(numbers) = told_numbers(state, pid) else {
        return refused(Errno::EMFILE);
    };
    match caller::write(state, pid, buf, &numbers) {
        Ok(()) => {}
        Err(StoreFault::BadAddress) => return refused(Errno::EFAULT),
        Err(StoreFault::NoMemory) => return Outcome::NoMemory,
    }
    match state.make_pipe(pid, has(flags, OpenFlags::CLOEXEC.bits())) {
        Ok(_) => number(0),
        Err(FilesRefusal::Full) => unreachable!(),
        Err(FilesRefusal::NoMemory) => Outcome::NoMemory,
    }
}

/// The bytes that tell the next pipe's descriptors, `None` exactly where a process can make none.
fn told_numbers<T: Copy, const M: u8>(state: &State<T, M>, pid: u32) -> Option<[u8; 8]>
    requires { IsSound state.now }
    ensures none { IfNone result (takes_pipe_of pid (meaning state.now) ≡ false) }
    ensures some { IfSome result (λ bytes. option_map (λ fds. pipe_numbers fds.0 fds.1) (pair_of pid (meaning state.now)) ≡ Some bytes) }
    ensures takes { IfSome result (λ bytes. takes_pipe_of pid (meaning state.now) ≡ true) }
{
    if !state.takes_pipe(pid) {
        return None;
    }
    let first = state.lowest_free(pid, 0)?;
    let second = state.lowest_free(pid, first + 1)?;
    let mut bytes = [0; 8];
    bytes[..4].copy_from_slice(&first.to_le_bytes());
    bytes[4..].copy_from_slice(&second.to_le_bytes());
    Some(bytes)
}

//! fcntl(2): what is asked and changed of one descriptor.
ghost use Rattle.std.specs.Prelude.{◌≡◌, ◌≢◌, IfNone, IfSome, IsSome};
ghost use Rattle.kr_seen.specs.kr_files.WithoutMounts.{without_mount};
ghost use Rattle.kr_seen.specs.kr_model.Asking.{or_closed};
ghost use Rattle.kr_seen.specs.kr_model.DescriptorRows.{cloexec_flag, copy_from, fcntl_by, fcntl_row, status_flags};
ghost use Rattle.kr_seen.specs.kr_model.Known.{known};
ghost use Rattle.kr_seen.specs.kr_model.State.{image_layout};
ghost use Rattle.kr_seen.specs.kr_model.declared.outcome.Outcome.TheVariants.{NoMemory as WantOfMemory};
ghost use Rattle.kr_seen.specs.kr_ops.Meaning.{meaning};
ghost use Rattle.kr_seen.specs.kr_ops.Sound.{IsServed, IsSound};
ghost use Rattle.kr_rows.specs.Commands.{IsUnknown, number_of};
ghost use Rattle.kr_seen.specs.PerformedRows.{Performs};

use crate::answer::{natural, number, open_number, refused};
use bitflags::Flags;
use kr_seen::below::{DESCRIPTORS, Errno, FilesRefusal, OpenFlags, Opened, Outcome, State};

/// The highest descriptor that a process may have.
const LAST_DESCRIPTOR: u64 = DESCRIPTORS as u64 - 1;

/// A command of fcntl(2), without the prefix `F_`.
#[derive(Clone, Copy)]
enum Command {
    DupFd,
    DupFdCloexec,
    GetFd,
    SetFd,
    GetFl,
    SetFl,
}

impl Command {
    /// The command of a number, as Linux numbers them.
    fn of(number: u32) -> Option<Command>
        ensures some { IfSome result (λ command. number_of command ≡ number) }
        ensures none { IfNone result (IsUnknown number) }
    {
        match number {
            0 => Some(Command::DupFd),
            1 => Some(Command::GetFd),
            2 => Some(Command::SetFd),
            3 => Some(Command::GetFl),
            4 => Some(Command::SetFl),
            1030 => Some(Command::DupFdCloexec),
            _ => None,
        }
    }
}

/// fcntl(2): EBADF of a descriptor that isn't open, EINVAL of another command.
pub fn fcntl<T: Copy, const M: u8>(
    state: &mut State<T, M>,
    pid: u32,
    fd: i32,
    cmd: i32,
    arg: u64,
) -> Outcome
    requires { IsSound state.old }
    ensures performs { Performs pid (λ k. fcntl_row k fd cmd arg) state.old state.new result }
    ensures served { result ≢ WantOfMemory → IsServed state.new }
{
    let Some(fd) = open_number(state, pid, fd) else {
        return refused(Errno::EBADF);
    };
    let Some(cmd) = natural(cmd) else {
        return refused(Errno::EINVAL);
    };
    match Command::of(cmd) {
        Some(command) => obey(state, pid, fd, command, arg),
        None => refused(Errno::EINVAL),
    }
}

/// What a command does: F_SETFD reads the bit 1 of its argument, and F_SETFL changes O_APPEND alone.
fn obey<T: Copy, const M: u8>(
    state: &mut State<T, M>,
    pid: u32,
    fd: u32,
    command: Command,
    arg: u64,
) -> Outcome
    requires sound { IsSound state.old }
    requires is_open { IsSome ((known image_layout pid (meaning state.old)).opened fd) }
    ensures performs { Performs pid (λ k. or_closed (k.opened fd) (fcntl_by k (number_of command) arg fd)) state.old state.new result }
    ensures served { result ≢ WantOfMemory → IsServed state.new }
{
    match command {
        Command::DupFd => copy_from(state, pid, fd, arg, false),
        Command::DupFdCloexec => copy_from(state, pid, fd, arg, true),
        Command::GetFd => number(cloexec_flag(state, pid, fd)),
        Command::SetFd => {
            state.set_cloexec(pid, fd, arg % 2 == 1);
            number(0)
        }
        Command::GetFl => match state.opened(pid, fd) {
            Some(opened) => number(status_flags(opened)),
            None => unreachable!(),
        },
        Command::SetFl => {
            let append = u64::from(OpenFlags::APPEND.bits());
            state.set_append(pid, fd, arg & append == append);
            number(0)
        }
    }
}

/// F_DUPFD and F_DUPFD_CLOEXEC: EINVAL above the highest descriptor, EMFILE where none is free; the lowest free one from there on.
fn copy_from<T: Copy, const M: u8>(
    state: &mut State<T, M>,
    pid: u32,
    fd: u32,
    from: u64,
    cloexec: bool,
) -> Outcome
    requires sound { IsSound state.old }
    requires is_open { IsSome ((known image_layout pid (meaning state.old)).opened fd) }
    ensures performs { Performs pid (λ k. copy_from k fd from cloexec) state.old state.new result }
    ensures served { result ≢ WantOfMemory → IsServed state.new }
{
    if LAST_DESCRIPTOR < from {
        return refused(Errno::EINVAL);
    }
    match state.copy(pid, fd, from as u32, cloexec) {
        Ok(to) => number(to),
        Err(FilesRefusal::Full) => refused(Errno::EMFILE),
        Err(FilesRefusal::NoMemory) => Outcome::NoMemory,
    }
}

/// 1 where a successful execve(2) closes a descriptor, and else 0.
fn cloexec_flag<T: Copy, const M: u8>(state: &State<T, M>, pid: u32, fd: u32) -> u32
    requires sound { IsSound state.now }
    requires is_open { IsSome ((known image_layout pid (meaning state.now)).opened fd) }
    ensures { result ≡ cloexec_flag (known image_layout pid (meaning state.now)) fd }
{
    match state.cloexec(pid, fd) {
        Some(cloexec) => u32::from(cloexec),
        None => unreachable!(),
    }
}

/// The access mode and O_APPEND.
fn status_flags<T: Copy>(opened: &Opened<T>) -> u32
    ensures { result ≡ status_flags (without_mount opened.now) }
{
    let access = if !opened.write {
        0
    } else if opened.read {
        OpenFlags::RDWR.bits()
    } else {
        OpenFlags::WRONLY.bits()
    };
    if opened.append {
        access + OpenFlags::APPEND.bits()
    } else {
        access
    }
}

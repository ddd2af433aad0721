//! What is noted of the answers of a process's calls.
ghost use Rattle.std.specs.Prelude.{◌≡◌, OnErr, OnOk};
ghost use Rattle.pt_args.specs.pt_bind.Tags.{tag_of, with_tag};
ghost use Rattle.pt_results.specs.Notes.{copied, duplicated, noted, tags_after};

use crate::note::Note;
use crate::numbers::{descriptor_number, made_number};
use pt_args::below::NoMemory;
use pt_args::below::kr_calls::Request;
use pt_args::below::pt_bind::{Slot, Tags};

/// F_DUPFD of fcntl(2).
const DUPFD: i32 = 0;

/// F_DUPFD_CLOEXEC of fcntl(2).
const DUPFD_CLOEXEC: i32 = 1030;

/// Notes the answer of a call: a new descriptor, working directory or executable has the index of the guest text that the call's
/// path led to, and a copy has the tag of its original. An error is no reason to note anything, nor is any other call. Where
/// memory is wanting nothing changes.
pub fn note_result(
    tags: &mut Tags,
    pid: u32,
    request: &Request,
    index: u32,
    answer: i64,
) -> Result<(), NoMemory>
    ensures ok { OnOk result (tags.new ≡ tags_after tags.old pid (noted request.now index answer)) }
    ensures err { OnErr result (tags.new ≡ tags.old) }
{
    match noted(request, index, answer) {
        Note::Nothing => Ok(()),
        Note::Sets(slot, index) => set(tags, pid, slot, index),
        Note::Copies(from, to) => {
            let tag = tag(tags, pid, from);
            set(tags, pid, to, tag)
        }
    }
}

/// The tag of a slot.
fn tag(tags: &Tags, pid: u32, slot: Slot) -> u32
    ensures { result ≡ tag_of tags.now pid slot }
{
    match slot {
        Slot::Cwd => tags.cwd(pid),
        Slot::Exe => tags.exe(pid),
        Slot::Fd(fd) => tags.fd(pid, fd),
    }
}

/// Sets the tag of a slot.
fn set(tags: &mut Tags, pid: u32, slot: Slot, tag: u32) -> Result<(), NoMemory>
    ensures ok { OnOk result (tags.new ≡ with_tag tags.old pid slot tag) }
    ensures err { OnErr result (tags.new ≡ tags.old) }
{
    match slot {
        Slot::Cwd => tags.set_cwd(pid, tag),
        Slot::Exe => tags.set_exe(pid, tag),
        Slot::Fd(fd) => tags.set_fd(pid, fd, tag),
    }
}

/// What the answer of a call tells of tags.
fn noted(request: &Request, index: u32, answer: i64) -> Note
    ensures { result ≡ noted request.now index answer }
{
    let Some(number) = made_number(answer) else {
        return Note::Nothing;
    };
    match request {
        Request::Openat { .. } => Note::Sets(Slot::Fd(number), index),
        Request::Chdir { .. } => Note::Sets(Slot::Cwd, index),
        Request::Execve { .. } => Note::Sets(Slot::Exe, index),
        Request::Fchdir { fd } => copied(*fd, Slot::Cwd),
        Request::Dup { fd } => copied(*fd, Slot::Fd(number)),
        Request::Dup3 { old, .. } => copied(*old, Slot::Fd(number)),
        Request::Fcntl { fd, cmd, .. } => duplicated(*fd, *cmd, number),
        _ => Note::Nothing,
    }
}

/// A slot that becomes a copy of a descriptor.
fn copied(fd: i32, to: Slot) -> Note
    ensures { result ≡ copied fd to }
{
    match descriptor_number(fd) {
        Some(from) => Note::Copies(Slot::Fd(from), to),
        None => Note::Nothing,
    }
}

/// A descriptor that fcntl(2) answered.
fn duplicated(fd: i32, cmd: i32, number: u32) -> Note
    ensures { result ≡ duplicated fd cmd number }
{
    match cmd {
        DUPFD | DUPFD_CLOEXEC => copied(fd, Slot::Fd(number)),
        _ => Note::Nothing,
    }
}

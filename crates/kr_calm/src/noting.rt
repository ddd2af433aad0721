//! What a call reads of its caller's memory before it ends it.
ghost use Rattle.std.specs.Prelude.{◌≡◌, ◌*◌, ◌≤◌, ℕ, length, if◌then◌else◌};
ghost use Rattle.kr_seen.specs.rv_mem.Memory.{after_read};
ghost use Rattle.kr_seen.specs.rv_mem.Pages.{allows_all};
ghost use Rattle.kr_seen.specs.kr_model.Asking.{descriptor_number};
ghost use Rattle.kr_seen.specs.kr_model.Known.{known};
ghost use Rattle.kr_seen.specs.kr_model.State.{image_layout};
ghost use Rattle.kr_seen.specs.kr_ops.Meaning.{meaning};
ghost use Rattle.kr_seen.specs.kr_ops.Sound.{IsSound, IsSoundFor};
ghost use Rattle.kr_seen.specs.Carrying.{memory_of};
ghost use Rattle.kr_seen.specs.Using.{HasMemory};
ghost use Rattle.kr_calm.specs.Noted.{IsNoted, is_read, is_unread, kills};

use kr_seen::below::{MOST_PIECES, Request, State, Use, What};
use kr_seen::caller::read_into;

/// How many bytes a piece has in a list: an address and a length.
const PIECE: usize = 16;

/// How many bytes a list has at most.
const LIST: usize = PIECE * MOST_PIECES as usize;

/// A number that isn't negative, `None` exactly where it is.
pub(crate) fn natural(number: i32) -> Option<u32>
    ensures { result ≡ descriptor_number number }
{
    u32::try_from(number).ok()
}

/// Whether what is open is the end for writing of a pipe that nobody reads.
fn is_unread<T: Copy, const M: u8>(state: &State<T, M>, what: What) -> bool
    ensures { (pid : ℕ) → result ≡ is_unread (known image_layout pid (meaning state.now)) what }
{
    match what {
        What::PipeWrite(pipe) => match state.files.pipe_state(pipe) {
            Some(stands) => !stands.reader,
            None => false,
        },
        _ => false,
    }
}

/// Whether a write on a descriptor kills.
fn kills<T: Copy, const M: u8>(state: &State<T, M>, pid: u32, fd: i32) -> bool
    requires { IsSound state.now }
    ensures { result ≡ kills (known image_layout pid (meaning state.now)) fd }
{
    let Some(number) = natural(fd) else {
        return false;
    };
    match state.opened(pid, number) {
        Some(opened) => opened.write && is_unread(state, opened.what),
        None => false,
    }
}

/// Reads `n` bytes of a process into the front of a buffer, if they can be read.
fn read_front<T: Copy, const M: u8>(
    state: &mut State<T, M>,
    pid: u32,
    at: u64,
    n: usize,
    buffer: &mut [u8],
)
    requires caller { IsSoundFor pid state.old }
    requires room { n ≤ length buffer.old }
    ensures { let memory = memory_of pid (meaning state.old) in
        HasMemory pid (if allows_all memory.pages at n Use.Read then after_read memory at n else memory) state.old state.new }
{
    let _read = read_into(state, pid, at, &mut buffer[..n]);
}

/// Reads a list of pieces, if it has at most 1,024 and can be read.
fn read_list<T: Copy, const M: u8>(state: &mut State<T, M>, pid: u32, list: u64, count: u64)
    requires { IsSoundFor pid state.old }
    ensures { let memory = memory_of pid (meaning state.old) in
        HasMemory pid (if is_read list count memory then after_read memory list (16 * count) else memory) state.old state.new }
{
    if count <= MOST_PIECES {
        read_front(state, pid, list, PIECE * count as usize, &mut [0; LIST]);
    }
}

/// Notes in the caller's memory what a call reads before it ends it: the list of a writev(2) into a pipe that nobody reads. The call
/// reads it again then, and comes to the same.
pub fn note_list<T: Copy, const M: u8>(state: &mut State<T, M>, pid: u32, request: &Request)
    requires { IsSoundFor pid state.old }
    ensures { IsNoted pid request.now state.old state.new }
{
    if let Request::Writev { fd, list, count } = request {
        if kills(state, pid, *fd) {
            read_list(state, pid, *list, *count);
        }
    }
}

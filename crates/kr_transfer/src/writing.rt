//! Calls that write to what is open. What each answers is told with whether the bytes of a file are others behind it.
ghost use Rattle.std.specs.Prelude.{◌≡◌, ◌≢◌, ◌+◌, ◌<◌, ◌≤◌, ◌^◌, ℕ, not, if◌then◌else◌, Some, None, length, true, take, drop, bytes_eq};
ghost use Rattle.kr_seen.specs.pr_base.declared.errno.Errno.TheVariants.{EBADF as NotOpen, EISDIR as IsDirectory};
ghost use Rattle.kr_seen.specs.rv_mem.declared.rights.Use.TheVariants.{Read};
ghost use Rattle.kr_seen.specs.kr_files.declared.opened.What.TheVariants.{File as RegularFile, PipeWrite as WriteEnd, Out as ConsoleOutput, Err as ConsoleError};
ghost use Rattle.kr_seen.specs.kr_tree.Changes.{file_limit};
ghost use Rattle.kr_seen.specs.kr_tree.Lawful.{AreBytes};
ghost use Rattle.kr_seen.specs.kr_tree.Tree.{body_is, is_file};
ghost use Rattle.kr_seen.specs.kr_model.FileRows.{is_dir, put_in_file, write_file, write_pieces, write_pipe, write_place, write_row, write_what, writev_row};
ghost use Rattle.kr_seen.specs.kr_model.Pieces.{one_piece, with_list};
ghost use Rattle.kr_seen.specs.kr_model.Reply.{refuse};
ghost use Rattle.kr_seen.specs.kr_model.declared.outcome.Outcome.TheVariants.{NoMemory as WantOfMemory};
ghost use Rattle.kr_seen.specs.kr_ops.Meaning.{meaning};
ghost use Rattle.kr_seen.specs.kr_ops.Sound.{IsOfViewFor, IsServed};
ghost use Rattle.kr_seen.specs.PerformedRows.{memory_of};
ghost use Rattle.kr_transfer.specs.Channels.{inode_under, IsOpenHere, PerformsOn};
ghost use Rattle.kr_transfer.specs.Moving.{all_allowed, bytes_at, told, IsCountOf};
ghost use Rattle.kr_transfer.specs.Writing.{WritesRow, WritesRowOn};

use crate::channel::{Channel, channel_of, inode_of, is_directory};
use crate::lists::{answer_of, read_list};
use crate::moving::{MOVE_LIMIT, may_use_all, part, read_all};
use crate::pieces::Piece;
use kr_seen::below::{
    Errno, FILE_LIMIT, Ino, NoMemory, Outcome, PIPE_BYTES, State, TreeRefusal, Use, What,
    lawful_states_are_sound,
};
use kr_seen::{number, refused};

/// How a process ends that writes to a pipe without readers, as wait4(2) tells it.
const SIGPIPE: u32 = 13;

/// How many bytes a pipe holds at most.
const PIPE_LIMIT: u32 = PIPE_BYTES as u32;

/// What a write came to.
#[derive(Clone, Copy)]
pub struct Written {
    pub outcome: Outcome,
    /// Whether the bytes of a file are others behind it: those that were written aren't those that stood there.
    pub differs: bool,
}

/// write(2): EBADF of a descriptor that isn't open for writing, EISDIR. At most 2,147,479,552 bytes are asked, and a length
/// of 0 answers 0. EFAULT of all bytes asked. A pipe without readers kills the caller, a full one waits, and another takes as
/// many bytes as are free. A file is written at its place, or at its end with O_APPEND: EFBIG where that is at or past the
/// limit of a file, at which the bytes are cut, and ENOSPC, where no byte is moved; zeros fill a gap, and the place moves on.
/// The console takes all. The number moved.
pub fn write<T: Copy, const M: u8>(
    state: &mut State<T, M>,
    pid: u32,
    fd: i32,
    buf: u64,
    n: u64,
) -> Written
    requires { IsOfViewFor pid state.old }
    ensures writes { WritesRow pid (λ k. write_row k fd buf n) state.old state.new result }
    ensures served { result.outcome ≢ WantOfMemory → IsServed state.new }
{
    lawful_states_are_sound::<T, M>();
    match channel_of(state, pid, fd) {
        Some(channel) => write_open(state, pid, channel, buf, n),
        None => Written {
            outcome: refused(Errno::EBADF),
            differs: false,
        },
    }
}

/// Why nothing is written, if so: it isn't open for writing, or is a directory.
fn why_unwritable(channel: Channel) -> Option<Errno>
    ensures { result ≡ (if not channel.write then Some NotOpen else if is_dir channel.what then Some IsDirectory else None) }
{
    if !channel.write {
        Some(Errno::EBADF)
    } else if is_directory(channel.what) {
        Some(Errno::EISDIR)
    } else {
        None
    }
}

/// Writes one piece to what is open.
fn write_open<T: Copy, const M: u8>(
    state: &mut State<T, M>,
    pid: u32,
    channel: Channel,
    buf: u64,
    n: u64,
) -> Written
    requires caller { IsOfViewFor pid state.old }
    requires here { IsOpenHere pid channel state.old }
    ensures writes { WritesRowOn pid channel (λ k o. if not o.write then refuse NotOpen else if is_dir o.what then refuse IsDirectory else write_pieces k channel.fd o (one_piece buf n)) state.old state.new result }
    ensures served { result.outcome ≢ WantOfMemory → IsServed state.new }
{
    if let Some(errno) = why_unwritable(channel) {
        return Written {
            outcome: refused(errno),
            differs: false,
        };
    }
    let count = n.min(MOVE_LIMIT);
    let pieces = [Piece { at: buf, count }];
    write_pieces(state, pid, channel, &pieces, count)
}

/// Writes pieces that have `count` bytes to what is open.
fn write_pieces<T: Copy, const M: u8>(
    state: &mut State<T, M>,
    pid: u32,
    channel: Channel,
    pieces: &[Piece],
    count: u64,
) -> Written
    requires caller { IsOfViewFor pid state.old }
    requires here { IsOpenHere pid channel state.old }
    requires count { IsCountOf pieces.now count }
    ensures writes { WritesRowOn pid channel (λ k o. write_pieces k channel.fd o (told pieces.now)) state.old state.new result }
    ensures served { result.outcome ≢ WantOfMemory → IsServed state.new }
{
    lawful_states_are_sound::<T, M>();
    if count == 0 {
        return Written {
            outcome: number(0),
            differs: false,
        };
    }
    if !may_use_all(state, pid, pieces, count, Use::Read) {
        return Written {
            outcome: refused(Errno::EFAULT),
            differs: false,
        };
    }
    write_readable(state, pid, channel, pieces, count)
}

/// Writes pieces all of which may be read, by what is open. Only what is written to a file changes the bytes of one.
fn write_readable<T: Copy, const M: u8>(
    state: &mut State<T, M>,
    pid: u32,
    channel: Channel,
    pieces: &[Piece],
    count: u64,
) -> Written
    requires caller { IsOfViewFor pid state.old }
    requires here { IsOpenHere pid channel state.old }
    requires some { 0 < count }
    requires count { IsCountOf pieces.now count }
    requires allowed { all_allowed (memory_of pid (meaning state.old)).pages Read (told pieces.now) ≡ true }
    ensures writes { WritesRowOn pid channel (λ k o. write_what k channel.fd o (told pieces.now) o.what) state.old state.new result }
    ensures served { result.outcome ≢ WantOfMemory → IsServed state.new }
{
    lawful_states_are_sound::<T, M>();
    match channel.what {
        What::File => write_file(state, pid, channel, pieces, count),
        What::Out => Written {
            outcome: write_out(state, pid, channel, pieces, count),
            differs: false,
        },
        What::Err => Written {
            outcome: write_err(state, pid, channel, pieces, count),
            differs: false,
        },
        What::PipeWrite(pipe) => Written {
            outcome: write_pipe(state, pid, channel, pieces, count, pipe),
            differs: false,
        },
        What::Dir => Written {
            outcome: refused(Errno::EISDIR),
            differs: false,
        },
        What::In => Written {
            outcome: refused(Errno::EBADF),
            differs: false,
        },
        What::PipeRead(_) => Written {
            outcome: refused(Errno::EBADF),
            differs: false,
        },
    }
}

/// Where a write to a file begins: at its end with O_APPEND.
fn place_of<T: Copy, const M: u8>(state: &State<T, M>, channel: Channel) -> u64
    requires { body_is is_file state.now.tree (inode_under channel.host) ≡ true }
    ensures { result ≡ (if channel.append then length (bytes_at state.now.tree (inode_under channel.host)) else channel.at) }
{
    if !channel.append {
        return channel.at;
    }
    match state.tree.file(inode_of(channel)) {
        Some(file) => file.len() as u64,
        None => unreachable!(),
    }
}

/// Writes a file at its place, or at its end.
fn write_file<T: Copy, const M: u8>(
    state: &mut State<T, M>,
    pid: u32,
    channel: Channel,
    pieces: &[Piece],
    count: u64,
) -> Written
    requires caller { IsOfViewFor pid state.old }
    requires here { IsOpenHere pid channel state.old }
    requires file { channel.what ≡ RegularFile }
    requires some { 0 < count }
    requires count { IsCountOf pieces.now count }
    requires allowed { all_allowed (memory_of pid (meaning state.old)).pages Read (told pieces.now) ≡ true }
    ensures writes { WritesRowOn pid channel (λ k o. write_file k channel.fd o (told pieces.now) (write_place k o)) state.old state.new result }
    ensures served { result.outcome ≢ WantOfMemory → IsServed state.new }
{
    lawful_states_are_sound::<T, M>();
    let at = place_of(state, channel);
    if FILE_LIMIT as u64 <= at {
        return Written {
            outcome: refused(Errno::EFBIG),
            differs: false,
        };
    }
    let bytes = match read_all(state, pid, pieces, FILE_LIMIT as u64 - at) {
        Ok(bytes) => bytes,
        Err(NoMemory) => {
            return Written {
                outcome: Outcome::NoMemory,
                differs: false,
            };
        }
    };
    put_in_file(state, pid, channel, at, bytes.as_slice())
}

/// That bytes are below 256, which a proof is told of a slice alone.
fn are_bytes(bytes: &[u8])
    ensures { AreBytes bytes.now }
{}

/// Puts bytes into a file from a place on, up to the limit of a file at most.
fn put_in_file<T: Copy, const M: u8>(
    state: &mut State<T, M>,
    pid: u32,
    channel: Channel,
    at: u64,
    bytes: &[u8],
) -> Written
    requires caller { IsOfViewFor pid state.old }
    requires here { IsOpenHere pid channel state.old }
    requires file { channel.what ≡ RegularFile }
    requires some { 0 < length bytes.now }
    requires limited { at + length bytes.now ≤ file_limit }
    ensures writes { WritesRowOn pid channel (λ k o. put_in_file k channel.fd o at bytes.now) state.old state.new result }
    ensures served { result.outcome ≢ WantOfMemory → IsServed state.new }
{
    are_bytes(bytes);
    let file = inode_of(channel);
    let differs = differ_from(state, file, at, bytes);
    match state.write_file(file, at, bytes) {
        Ok(()) => {
            state.seek(pid, channel.fd, at + bytes.len() as u64);
            Written {
                outcome: number(bytes.len() as u32),
                differs,
            }
        }
        Err(TreeRefusal::Full) => Written {
            outcome: refused(Errno::ENOSPC),
            differs: false,
        },
        Err(TreeRefusal::TooBig) => unreachable!(),
        Err(TreeRefusal::NoMemory) => Written {
            outcome: Outcome::NoMemory,
            differs: false,
        },
    }
}

/// Whether bytes that are to be written into a file aren't those that stand there. They are compared where they lie, up to the first that differs.
fn differ_from<T: Copy, const M: u8>(state: &State<T, M>, file: Ino, at: u64, bytes: &[u8]) -> bool
    requires { body_is is_file state.now.tree file ≡ true }
    ensures { result ≡ not (bytes_eq (take (length bytes.now) (drop at (bytes_at state.now.tree file))) bytes.now) }
{
    match state.tree.file(file) {
        Some(held) => part(held, at, bytes.len() as u64) != bytes,
        None => unreachable!(),
    }
}

/// Writes to the output.
fn write_out<T: Copy, const M: u8>(
    state: &mut State<T, M>,
    pid: u32,
    channel: Channel,
    pieces: &[Piece],
    count: u64,
) -> Outcome
    requires caller { IsOfViewFor pid state.old }
    requires count { IsCountOf pieces.now count }
    requires allowed { all_allowed (memory_of pid (meaning state.old)).pages Read (told pieces.now) ≡ true }
    ensures performs { PerformsOn pid channel (λ k o. write_what k channel.fd o (told pieces.now) ConsoleOutput) state.old state.new result }
    ensures served { result ≢ WantOfMemory → IsServed state.new }
{
    lawful_states_are_sound::<T, M>();
    let bytes = match read_all(state, pid, pieces, count) {
        Ok(bytes) => bytes,
        Err(NoMemory) => return Outcome::NoMemory,
    };
    match state.write_out(bytes.as_slice()) {
        Ok(()) => number(bytes.len() as u32),
        Err(NoMemory) => Outcome::NoMemory,
    }
}

/// Writes to the error output.
fn write_err<T: Copy, const M: u8>(
    state: &mut State<T, M>,
    pid: u32,
    channel: Channel,
    pieces: &[Piece],
    count: u64,
) -> Outcome
    requires caller { IsOfViewFor pid state.old }
    requires count { IsCountOf pieces.now count }
    requires allowed { all_allowed (memory_of pid (meaning state.old)).pages Read (told pieces.now) ≡ true }
    ensures performs { PerformsOn pid channel (λ k o. write_what k channel.fd o (told pieces.now) ConsoleError) state.old state.new result }
    ensures served { result ≢ WantOfMemory → IsServed state.new }
{
    lawful_states_are_sound::<T, M>();
    let bytes = match read_all(state, pid, pieces, count) {
        Ok(bytes) => bytes,
        Err(NoMemory) => return Outcome::NoMemory,
    };
    match state.write_err(bytes.as_slice()) {
        Ok(()) => number(bytes.len() as u32),
        Err(NoMemory) => Outcome::NoMemory,
    }
}

/// Writes to a pipe: one without readers kills, and a full one waits.
fn write_pipe<T: Copy, const M: u8>(
    state: &mut State<T, M>,
    pid: u32,
    channel: Channel,
    pieces: &[Piece],
    count: u64,
    pipe: u32,
) -> Outcome
    requires caller { IsOfViewFor pid state.old }
    requires some { 0 < count }
    requires count { IsCountOf pieces.now count }
    requires allowed { all_allowed (memory_of pid (meaning state.old)).pages Read (told pieces.now) ≡ true }
    ensures performs { PerformsOn pid channel (λ k o. write_pipe k pipe (told pieces.now) (k.pipe pipe)) state.old state.new result }
    ensures served { result ≢ WantOfMemory → IsServed state.new }
{
    lawful_states_are_sound::<T, M>();
    let Some(held) = state.files.pipe_state(pipe) else {
        return number(0);
    };
    if !held.reader {
        return match state.end(pid, SIGPIPE) {
            Ok(()) => Outcome::Ended,
            Err(NoMemory) => Outcome::NoMemory,
        };
    }
    if PIPE_LIMIT <= held.bytes {
        return Outcome::Wait;
    }
    let bytes = match read_all(state, pid, pieces, u64::from(PIPE_LIMIT - held.bytes)) {
        Ok(bytes) => bytes,
        Err(NoMemory) => return Outcome::NoMemory,
    };
    match state.put_into_pipe(pipe, bytes.as_slice()) {
        Ok(_) => number(bytes.len() as u32),
        Err(NoMemory) => Outcome::NoMemory,
    }
}

/// writev(2): after write(2)'s tests of what is open, EINVAL of more than 1,024 pieces, EFAULT where their list can't be read,
/// and EINVAL where their lengths sum to more than a signed number of 64 bits holds. Then as write(2), with the pieces' bytes
/// in their order.
pub fn writev<T: Copy, const M: u8>(
    state: &mut State<T, M>,
    pid: u32,
    fd: i32,
    list: u64,
    count: u64,
) -> Written
    requires { IsOfViewFor pid state.old }
    ensures writes { WritesRow pid (λ k. writev_row k fd list count) state.old state.new result }
    ensures served { result.outcome ≢ WantOfMemory → IsServed state.new }
{
    lawful_states_are_sound::<T, M>();
    match channel_of(state, pid, fd) {
        Some(channel) => writev_open(state, pid, channel, list, count),
        None => Written {
            outcome: refused(Errno::EBADF),
            differs: false,
        },
    }
}

/// Writes the pieces of a list to what is open.
fn writev_open<T: Copy, const M: u8>(
    state: &mut State<T, M>,
    pid: u32,
    channel: Channel,
    list: u64,
    count: u64,
) -> Written
    requires caller { IsOfViewFor pid state.old }
    requires here { IsOpenHere pid channel state.old }
    ensures writes { WritesRowOn pid channel (λ k o. if not o.write then refuse NotOpen else if is_dir o.what then refuse IsDirectory else with_list list count (write_pieces k channel.fd o)) state.old state.new result }
    ensures served { result.outcome ≢ WantOfMemory → IsServed state.new }
{
    lawful_states_are_sound::<T, M>();
    if let Some(errno) = why_unwritable(channel) {
        return Written {
            outcome: refused(errno),
            differs: false,
        };
    }
    match read_list(state, pid, list, count) {
        Ok(list) => write_pieces(state, pid, channel, list.pieces.as_slice(), list.count),
        Err(fault) => Written {
            outcome: answer_of(fault),
            differs: false,
        },
    }
}

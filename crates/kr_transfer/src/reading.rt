//! Calls that read from what is open.
ghost use Rattle.std.specs.Prelude.{◌≡◌, ◌≢◌, ◌+◌, ◌<◌, ◌^◌, ℕ, not, if◌then◌else◌, Some, None, IfNone, IfSome, IfOk, take, drop, length, true, min};
ghost use Rattle.kr_seen.specs.pr_base.declared.errno.Errno.TheVariants.{EBADF as NotOpen, EISDIR as IsDirectory};
ghost use Rattle.kr_seen.specs.kr_model.FileRows.{is_dir, read_file, read_input, read_pieces, read_pipe, read_row, readv_row};
ghost use Rattle.kr_seen.specs.kr_model.Pieces.{one_piece, with_list};
ghost use Rattle.kr_seen.specs.kr_model.Reply.{refuse};
ghost use Rattle.kr_seen.specs.kr_model.declared.outcome.Outcome.TheVariants.{NoMemory as WantOfMemory};
ghost use Rattle.kr_seen.specs.kr_files.declared.opened.What.TheVariants.{PipeRead as ReadEnd, In as ConsoleInput, File as RegularFile};
ghost use Rattle.kr_seen.specs.kr_ops.Sound.{IsOfViewFor, IsServed};
ghost use Rattle.kr_seen.specs.PerformedRows.{Performs};
ghost use Rattle.kr_seen.specs.kr_tree.Tree.{body_is, is_file};
ghost use Rattle.kr_transfer.specs.Channels.{inode_under, IsOpenHere, PerformsOn};
ghost use Rattle.kr_transfer.specs.Moving.{bytes_at, told, IsCountOf};

use crate::channel::{Channel, channel_of, inode_of, is_directory};
use crate::lists::{answer_of, read_list};
use crate::moving::{MOVE_LIMIT, allocator_of, hand, may_use_all, part, write_all};
use crate::pieces::Piece;
use kr_seen::below::{
    Bytes, Errno, Moved, NoMemory, Outcome, State, StoreFault, Use, What, lawful_states_are_sound,
};
use kr_seen::{number, refused};

/// read(2): EBADF of a descriptor that isn't open for reading, EISDIR. At most 2,147,479,552 bytes are asked, and a length
/// of 0 answers 0. A pipe without bytes waits where it has a writer, and answers 0 where it has none. Then EFAULT of the
/// bytes that are to be moved: the bytes from the place to a file's end, those in a pipe or those left of the input, as many
/// as are asked. A file's place moves on. The number moved.
pub fn read<T: Copy, const M: u8>(
    state: &mut State<T, M>,
    pid: u32,
    fd: i32,
    buf: u64,
    n: u64,
) -> Outcome
    requires { IsOfViewFor pid state.old }
    ensures performs { Performs pid (λ k. read_row k fd buf n) state.old state.new result }
    ensures served { result ≢ WantOfMemory → IsServed state.new }
{
    lawful_states_are_sound::<T, M>();
    match channel_of(state, pid, fd) {
        Some(channel) => read_open(state, pid, channel, buf, n),
        None => refused(Errno::EBADF),
    }
}

/// Why nothing is read, if so: it isn't open for reading, or is a directory.
fn why_unreadable(channel: Channel) -> Option<Errno>
    ensures { result ≡ (if not channel.read then Some NotOpen else if is_dir channel.what then Some IsDirectory else None) }
{
    if !channel.read {
        Some(Errno::EBADF)
    } else if is_directory(channel.what) {
        Some(Errno::EISDIR)
    } else {
        None
    }
}

/// Reads what is open into one piece.
fn read_open<T: Copy, const M: u8>(
    state: &mut State<T, M>,
    pid: u32,
    channel: Channel,
    buf: u64,
    n: u64,
) -> Outcome
    requires caller { IsOfViewFor pid state.old }
    requires here { IsOpenHere pid channel state.old }
    ensures performs { PerformsOn pid channel (λ k o. if not o.read then refuse NotOpen else if is_dir o.what then refuse IsDirectory else read_pieces k channel.fd o (one_piece buf n)) state.old state.new result }
    ensures served { result ≢ WantOfMemory → IsServed state.new }
{
    if let Some(errno) = why_unreadable(channel) {
        return refused(errno);
    }
    let count = n.min(MOVE_LIMIT);
    let pieces = [Piece { at: buf, count }];
    read_pieces(state, pid, channel, &pieces, count)
}

/// Reads what is open into pieces that ask for `count` bytes.
fn read_pieces<T: Copy, const M: u8>(
    state: &mut State<T, M>,
    pid: u32,
    channel: Channel,
    pieces: &[Piece],
    count: u64,
) -> Outcome
    requires caller { IsOfViewFor pid state.old }
    requires here { IsOpenHere pid channel state.old }
    requires count { IsCountOf pieces.now count }
    ensures performs { PerformsOn pid channel (λ k o. read_pieces k channel.fd o (told pieces.now)) state.old state.new result }
    ensures served { result ≢ WantOfMemory → IsServed state.new }
{
    if count == 0 {
        return number(0);
    }
    match channel.what {
        What::File => read_file(state, pid, channel, pieces, count),
        What::In => read_input(state, pid, channel, pieces, count),
        What::PipeRead(pipe) => read_pipe(state, pid, channel, pieces, count, pipe),
        What::Dir => refused(Errno::EISDIR),
        What::Out => refused(Errno::EBADF),
        What::Err => refused(Errno::EBADF),
        What::PipeWrite(_) => refused(Errno::EBADF),
    }
}

/// Reads a file from its place on, which moves on.
fn read_file<T: Copy, const M: u8>(
    state: &mut State<T, M>,
    pid: u32,
    channel: Channel,
    pieces: &[Piece],
    count: u64,
) -> Outcome
    requires caller { IsOfViewFor pid state.old }
    requires here { IsOpenHere pid channel state.old }
    requires file { channel.what ≡ RegularFile }
    requires count { IsCountOf pieces.now count }
    ensures performs { PerformsOn pid channel (λ k o. read_file k channel.fd o (told pieces.now)) state.old state.new result }
    ensures served { result ≢ WantOfMemory → IsServed state.new }
{
    lawful_states_are_sound::<T, M>();
    let bytes = match file_part(state, channel, count) {
        Ok(bytes) => bytes,
        Err(NoMemory) => return Outcome::NoMemory,
    };
    if bytes.is_empty() {
        return number(0);
    }
    match hand(state, pid, pieces, bytes.as_slice()) {
        Ok(()) => {
            state.seek(pid, channel.fd, channel.at + bytes.len() as u64);
            number(bytes.len() as u32)
        }
        Err(StoreFault::BadAddress) => refused(Errno::EFAULT),
        Err(StoreFault::NoMemory) => Outcome::NoMemory,
    }
}

/// At most `n` bytes of an open file from its place on.
fn file_part<T: Copy, const M: u8>(
    state: &State<T, M>,
    channel: Channel,
    n: u64,
) -> Result<Bytes, NoMemory>
    requires { body_is is_file state.now.tree (inode_under channel.host) ≡ true }
    ensures bytes { IfOk result (λ bytes. bytes ≡ take n (drop channel.at (bytes_at state.now.tree (inode_under channel.host)))) }
    ensures end { IfOk result (λ bytes. 0 < length bytes → channel.at + length bytes < 2 ^ 63) }
{
    let file = match state.tree.file(inode_of(channel)) {
        Some(file) => file,
        None => unreachable!(),
    };
    Bytes::copy(allocator_of(state), part(file, channel.at, n))
}

/// Reads the input that is left.
fn read_input<T: Copy, const M: u8>(
    state: &mut State<T, M>,
    pid: u32,
    channel: Channel,
    pieces: &[Piece],
    count: u64,
) -> Outcome
    requires caller { IsOfViewFor pid state.old }
    requires count { IsCountOf pieces.now count }
    ensures performs { PerformsOn pid channel (λ k o. read_input k (told pieces.now)) state.old state.new result }
    ensures served { result ≢ WantOfMemory → IsServed state.new }
{
    lawful_states_are_sound::<T, M>();
    let left = part(state.input.as_slice(), state.taken, count);
    let bytes = match Bytes::copy(allocator_of(state), left) {
        Ok(bytes) => bytes,
        Err(NoMemory) => return Outcome::NoMemory,
    };
    if bytes.is_empty() {
        return number(0);
    }
    match hand(state, pid, pieces, bytes.as_slice()) {
        Ok(()) => {
            state.take_input(bytes.len() as u64);
            number(bytes.len() as u32)
        }
        Err(StoreFault::BadAddress) => refused(Errno::EFAULT),
        Err(StoreFault::NoMemory) => Outcome::NoMemory,
    }
}

/// Reads a pipe: an empty one waits where it has a writer, and ends where it has none.
fn read_pipe<T: Copy, const M: u8>(
    state: &mut State<T, M>,
    pid: u32,
    channel: Channel,
    pieces: &[Piece],
    count: u64,
    pipe: u32,
) -> Outcome
    requires caller { IsOfViewFor pid state.old }
    requires some { 0 < count }
    requires count { IsCountOf pieces.now count }
    ensures performs { PerformsOn pid channel (λ k o. read_pipe k pipe (told pieces.now) (k.pipe pipe)) state.old state.new result }
    ensures served { result ≢ WantOfMemory → IsServed state.new }
{
    lawful_states_are_sound::<T, M>();
    let Some(held) = state.files.pipe_state(pipe) else {
        return number(0);
    };
    if held.bytes == 0 {
        return if held.writer {
            Outcome::Wait
        } else {
            number(0)
        };
    }
    let moved = count.min(u64::from(held.bytes));
    if !may_use_all(state, pid, pieces, moved, Use::Write) {
        return refused(Errno::EFAULT);
    }
    // What is taken isn't lost: the pieces may all be written.
    let bytes = match state.take_from_pipe(pipe, moved as usize) {
        Ok(Moved::Bytes(bytes)) => bytes,
        Ok(Moved::NotReady) => unreachable!(),
        Err(NoMemory) => return Outcome::NoMemory,
    };
    match write_all(state, pid, pieces, bytes.as_slice()) {
        Ok(()) => number(moved as u32),
        Err(NoMemory) => Outcome::NoMemory,
    }
}

/// readv(2): after read(2)'s tests of what is open, EINVAL of more than 1,024 pieces, EFAULT where their list can't be read,
/// and EINVAL where their lengths sum to more than a signed number of 64 bits holds. Then as read(2); the pieces are filled in
/// their order.
pub fn readv<T: Copy, const M: u8>(
    state: &mut State<T, M>,
    pid: u32,
    fd: i32,
    list: u64,
    count: u64,
) -> Outcome
    requires { IsOfViewFor pid state.old }
    ensures performs { Performs pid (λ k. readv_row k fd list count) state.old state.new result }
    ensures served { result ≢ WantOfMemory → IsServed state.new }
{
    lawful_states_are_sound::<T, M>();
    match channel_of(state, pid, fd) {
        Some(channel) => readv_open(state, pid, channel, list, count),
        None => refused(Errno::EBADF),
    }
}

/// Reads what is open into the pieces of a list.
fn readv_open<T: Copy, const M: u8>(
    state: &mut State<T, M>,
    pid: u32,
    channel: Channel,
    list: u64,
    count: u64,
) -> Outcome
    requires caller { IsOfViewFor pid state.old }
    requires here { IsOpenHere pid channel state.old }
    ensures performs { PerformsOn pid channel (λ k o. if not o.read then refuse NotOpen else if is_dir o.what then refuse IsDirectory else with_list list count (read_pieces k channel.fd o)) state.old state.new result }
    ensures served { result ≢ WantOfMemory → IsServed state.new }
{
    lawful_states_are_sound::<T, M>();
    if let Some(errno) = why_unreadable(channel) {
        return refused(errno);
    }
    match read_list(state, pid, list, count) {
        Ok(list) => read_pieces(state, pid, channel, list.pieces.as_slice(), list.count),
        Err(fault) => answer_of(fault),
    }
}

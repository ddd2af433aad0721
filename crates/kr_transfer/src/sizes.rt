//! The size of an open file.
ghost use Rattle.kr_seen.specs.kr_model.FileRows.{cut_file, ftruncate_row};
ghost use Rattle.kr_seen.specs.kr_ops.Sound.{IsOfView, IsServed};
ghost use Rattle.kr_seen.specs.PerformedRows.{Performs};
ghost use Rattle.kr_transfer.specs.Channels.{IsOpenHere, PerformsOn};

use crate::channel::{Channel, channel_of, inode_of, is_writable_file};
use kr_seen::below::{Errno, Outcome, State, TreeRefusal, lawful_states_are_sound};
use kr_seen::{number, refused};

/// ftruncate(2): EBADF of a descriptor that isn't open, EINVAL of what is no file or isn't open for writing, EFBIG of a
/// size above the limit of a file, ENOSPC where all files together would have too many bytes. Zeros fill what is added.
pub fn ftruncate<T: Copy, const M: u8>(
    state: &mut State<T, M>,
    pid: u32,
    fd: i32,
    len: u64,
) -> Outcome
    requires { IsOfView state.old }
    ensures performs { Performs pid (λ k. ftruncate_row k fd len) state.old state.new result }
    ensures served { IsServed state.new }
{
    lawful_states_are_sound::<T, M>();
    match channel_of(state, pid, fd) {
        Some(channel) => cut(state, pid, channel, len),
        None => refused(Errno::EBADF),
    }
}

/// Cuts what is open at a length, or lengthens it.
fn cut<T: Copy, const M: u8>(
    state: &mut State<T, M>,
    pid: u32,
    channel: Channel,
    len: u64,
) -> Outcome
    requires view { IsOfView state.old }
    requires here { IsOpenHere pid channel state.old }
    ensures performs { PerformsOn pid channel (λ k o. cut_file k o len) state.old state.new result }
    ensures served { IsServed state.new }
{
    if !is_writable_file(channel) {
        return refused(Errno::EINVAL);
    }
    match state.set_size(inode_of(channel), len) {
        Ok(()) => number(0),
        Err(TreeRefusal::TooBig) => refused(Errno::EFBIG),
        Err(TreeRefusal::Full) => refused(Errno::ENOSPC),
        Err(TreeRefusal::NoMemory) => Outcome::NoMemory,
    }
}

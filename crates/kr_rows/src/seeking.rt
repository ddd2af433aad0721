//! lseek(2): the place at which the next read or write begins.
ghost use Rattle.std.specs.Prelude.{◌≡◌, ◌<◌, ◌^◌, ◌+ℤ◌, ℕ, ℤ, [], ◌∷◌, pos, length, IfErr, IfOk, IfSome};
ghost use Rattle.std.specs.Option.{option_map_or};
ghost use Rattle.kr_seen.specs.pr_base.declared.errno.Errno.TheVariants.{EINVAL};
ghost use Rattle.kr_seen.specs.kr_files.WithoutMounts.{without_mount};
ghost use Rattle.kr_seen.specs.kr_model.Change.{Seek};
ghost use Rattle.kr_seen.specs.kr_model.DescriptorRows.{lseek_row, open_bytes, seek_to, seek_what};
ghost use Rattle.kr_seen.specs.kr_model.Known.{known};
ghost use Rattle.kr_seen.specs.kr_model.Reply.{done, refuse};
ghost use Rattle.kr_seen.specs.kr_model.State.{image_layout};
ghost use Rattle.kr_seen.specs.kr_ops.Meaning.{meaning};
ghost use Rattle.kr_seen.specs.kr_ops.Sound.{IsServed, IsSound};
ghost use Rattle.kr_seen.specs.PerformedRows.{Performs};

use crate::answer::{open_number, refused};
use kr_seen::below::{Errno, Host, Opened, Outcome, State, What};

/// Places are below this one.
const PLACES_END: u64 = 1 << 63;

/// From where lseek(2) counts, in the numbers of its third argument.
const SEEK_SET: i32 = 0;

const SEEK_CUR: i32 = 1;

const SEEK_END: i32 = 2;

/// lseek(2): EBADF of a descriptor that isn't open; ESPIPE of a pipe or the console; EINVAL of another whence, of a directory with one
/// other than 0, of a place that is negative or above 2^63 - 1; the new place.
pub fn lseek<T: Copy, const M: u8>(
    state: &mut State<T, M>,
    pid: u32,
    fd: i32,
    off: i64,
    whence: i32,
) -> Outcome
    requires { IsSound state.old }
    ensures performs { Performs pid (λ k. lseek_row k fd off whence) state.old state.new result }
    ensures served { IsServed state.new }
{
    let Some(fd) = open_number(state, pid, fd) else {
        return refused(Errno::EBADF);
    };
    let Some(opened) = state.opened(pid, fd) else {
        unreachable!();
    };
    let origin = match origin(state, opened, whence) {
        Ok(origin) => origin,
        Err(errno) => return refused(errno),
    };
    match moved(origin, off) {
        Some(at) => {
            state.seek(pid, fd, at);
            Outcome::Answer(at as i64)
        }
        None => refused(Errno::EINVAL),
    }
}

/// The place so far behind another, if it is one.
fn moved(origin: u64, off: i64) -> Option<u64>
    ensures place { (fd : ℕ) → option_map_or (λ at. done at (Seek fd at ∷ [])) result (refuse EINVAL) ≡ seek_to fd (pos origin +ℤ off) }
    ensures below { IfSome result (λ at. at < 2 ^ 63) }
{
    let at = origin.checked_add_signed(off)?;
    if at < PLACES_END { Some(at) } else { None }
}

/// The place from which it counts.
fn origin<T: Copy, const M: u8>(
    state: &State<T, M>,
    opened: &Opened<T>,
    whence: i32,
) -> Result<u64, Errno>
    ensures ok { IfOk result (λ at. (pid fd : ℕ) (off : ℤ) → seek_what (known image_layout pid (meaning state.now)) off whence fd (without_mount opened.now) opened.now.what ≡ seek_to fd (pos at +ℤ off)) }
    ensures err { IfErr result (λ e. (pid fd : ℕ) (off : ℤ) → seek_what (known image_layout pid (meaning state.now)) off whence fd (without_mount opened.now) opened.now.what ≡ refuse e) }
{
    match (opened.what, whence) {
        (What::File | What::Dir, SEEK_SET) => Ok(0),
        (What::File, SEEK_CUR) => Ok(opened.at),
        (What::File, SEEK_END) => Ok(length(state, opened)),
        (What::File | What::Dir, _) => Err(Errno::EINVAL),
        _ => Err(Errno::ESPIPE),
    }
}

/// How many bytes an open file has.
fn length<T: Copy, const M: u8>(state: &State<T, M>, opened: &Opened<T>) -> u64
    ensures { (pid : ℕ) → result ≡ length (open_bytes (known image_layout pid (meaning state.now)) (without_mount opened.now)) }
{
    let Some(place) = opened.place else {
        return 0;
    };
    match place.host {
        Host::Node(ino) => match state.tree.meta(ino) {
            Some(meta) => meta.size,
            None => 0,
        },
        Host::Proc(_, _) => 0,
    }
}

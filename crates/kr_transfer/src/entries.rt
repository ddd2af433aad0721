//! getdents64(2).
ghost use Rattle.std.specs.Prelude.{◌≡◌, ◌≢◌, ◌<◌, ◌≤◌, ◌∷◌, [], length, true, is_some, IfOk, IfSome};
ghost use Rattle.std.specs.Option.{option_map_or};
ghost use Rattle.kr_seen.specs.pr_base.declared.errno.Errno.TheVariants.{EFAULT as Fault, ENOTDIR as NotDirectory};
ghost use Rattle.kr_seen.specs.rv_mem.Actions.{write_if_allowed};
ghost use Rattle.kr_seen.specs.kr_model.Asking.{is_directory_host};
ghost use Rattle.kr_seen.specs.kr_model.Change.{Seek};
ghost use Rattle.kr_seen.specs.kr_model.DirectoryRows.{behind, fitting, getdents64_row, list_host, list_rest, listed_bytes, shown_by};
ghost use Rattle.kr_seen.specs.kr_model.Known.{known};
ghost use Rattle.kr_seen.specs.kr_model.Reply.{done, refuse};
ghost use Rattle.kr_seen.specs.kr_model.State.{image_layout};
ghost use Rattle.kr_seen.specs.kr_model.declared.outcome.Outcome.TheVariants.{NoMemory as WantOfMemory};
ghost use Rattle.kr_seen.specs.kr_ops.Meaning.{meaning};
ghost use Rattle.kr_seen.specs.kr_ops.Sound.{IsOfView, IsOfViewFor, IsServed, IsSoundFor};
ghost use Rattle.kr_seen.specs.PerformedRows.{Performs};
ghost use Rattle.kr_transfer.specs.Channels.{PerformsOn};
ghost use Rattle.kr_transfer.specs.Listing.{all_shown, last_from, IsNextFitting};

use crate::channel::{Channel, channel_of};
use crate::listing::{Listed, or_zero, record_length};
use crate::moving::allocator_of;
use crate::shown::{is_shown, next_listed};
use kr_seen::below::{
    Bytes, Errno, Host, NoMemory, Outcome, ProcAt, State, StoreFault, dirent_bytes,
    lawful_states_are_sound,
};
use kr_seen::{caller, number, refused};

/// Entries as bytes, and the serial of the last one.
#[derive(Drop)]
struct Gathered {
    bytes: Bytes,
    last: u64,
}

/// Whether an object is a directory: one of the tree, the process directory, or one in it.
fn is_directory_host<T: Copy, const M: u8>(state: &State<T, M>, pid: u32, host: Host) -> bool
    ensures { result ≡ is_directory_host (known image_layout pid (meaning state.now)) host }
{
    match host {
        Host::Node(ino) => state.tree.is_directory(ino),
        Host::Proc(_, at) => matches!(at, ProcAt::Dir(_) | ProcAt::FdDir(_)),
    }
}

/// The first entry behind a place, if it fits into `left` bytes.
fn next_fitting<T: Copy, const M: u8>(
    state: &State<T, M>,
    pid: u32,
    host: Host,
    after: u64,
    left: usize,
) -> Result<Option<Listed>, NoMemory>
    requires view { IsOfView state.now }
    requires shown { is_some (shown_by (known image_layout pid (meaning state.now)) host) ≡ true }
    ensures entry { IfOk result (λ next. IsNextFitting (all_shown (known image_layout pid (meaning state.now)) host) after left next) }
    ensures short { IfOk result (λ next. IfSome next (λ e. length e.name ≤ 255)) }
{
    let Some(entry) = next_listed(state, pid, host, after)? else {
        return Ok(None);
    };
    if record_length(entry.name.as_slice()) > left {
        return Ok(None);
    }
    Ok(Some(entry))
}

/// As many entries behind a place as fit `n` bytes.
fn gather<T: Copy, const M: u8>(
    state: &State<T, M>,
    pid: u32,
    host: Host,
    after: u64,
    n: u32,
) -> Result<Gathered, NoMemory>
    requires view { IsOfView state.now }
    requires shown { is_some (shown_by (known image_layout pid (meaning state.now)) host) ≡ true }
    ensures bytes { IfOk result (λ all. all.bytes ≡ listed_bytes (fitting n (behind after (all_shown (known image_layout pid (meaning state.now)) host)))) }
    ensures few { IfOk result (λ all. length all.bytes ≤ n) }
    ensures last { IfOk result (λ all. all.last ≡ last_from after (fitting n (behind after (all_shown (known image_layout pid (meaning state.now)) host)))) }
{
    let mut bytes = Bytes::new(allocator_of(state));
    let mut last = after;
    let mut left = n as usize;
    'entries: while let Some(entry) = next_fitting(state, pid, host, last, left)? {
        let name = entry.name.as_slice();
        let told = dirent_bytes(
            allocator_of(state),
            entry.inode,
            entry.serial,
            entry.kind,
            name,
        )?;
        bytes.append(told.as_slice())?;
        left -= record_length(name);
        last = entry.serial;
    }
    Ok(Gathered { bytes, last })
}

/// Hands entries to the caller, EFAULT where their bytes can't be written. The place moves behind them.
fn tell<T: Copy, const M: u8>(
    state: &mut State<T, M>,
    pid: u32,
    fd: u32,
    buf: u64,
    all: &Gathered,
) -> Outcome
    requires caller { IsSoundFor pid state.old }
    requires few { length all.now.bytes < 4294967296 }
    ensures performs { Performs pid (λ k. write_if_allowed buf all.now.bytes (refuse Fault) (done (length all.now.bytes) (Seek fd all.now.last ∷ []))) state.old state.new result }
    ensures served { result ≢ WantOfMemory → IsServed state.new }
{
    match caller::write(state, pid, buf, all.bytes.as_slice()) {
        Ok(()) => {
            state.seek(pid, fd, all.last);
            number(all.bytes.len() as u32)
        }
        Err(StoreFault::BadAddress) => refused(Errno::EFAULT),
        Err(StoreFault::NoMemory) => Outcome::NoMemory,
    }
}

/// Lists what a directory shows behind the place of what is open: EINVAL where not even one entry fits.
fn list_shown<T: Copy, const M: u8>(
    state: &mut State<T, M>,
    pid: u32,
    channel: Channel,
    host: Host,
    buf: u64,
    n: u32,
) -> Outcome
    requires caller { IsOfViewFor pid state.old }
    requires shown { is_some (shown_by (known image_layout pid (meaning state.old)) host) ≡ true }
    ensures performs { Performs pid (λ k. list_rest channel.fd buf n (behind channel.at (all_shown k host))) state.old state.new result }
    ensures served { result ≢ WantOfMemory → IsServed state.new }
{
    lawful_states_are_sound::<T, M>();
    match next_listed(state, pid, host, channel.at) {
        Ok(Some(entry)) => {
            if record_length(entry.name.as_slice()) > n as usize {
                return refused(Errno::EINVAL);
            }
        }
        Ok(None) => return number(0),
        Err(NoMemory) => return Outcome::NoMemory,
    }
    match gather(state, pid, host, channel.at, n) {
        Ok(all) => tell(state, pid, channel.fd, buf, &all),
        Err(NoMemory) => Outcome::NoMemory,
    }
}

/// Lists what is open at an object: ENOTDIR, and ENOENT of a directory that was removed or went with its process.
fn list_host<T: Copy, const M: u8>(
    state: &mut State<T, M>,
    pid: u32,
    channel: Channel,
    host: Host,
    buf: u64,
    n: u32,
) -> Outcome
    requires { IsOfViewFor pid state.old }
    ensures performs { Performs pid (λ k. list_host k channel.fd channel.at buf n host) state.old state.new result }
    ensures served { result ≢ WantOfMemory → IsServed state.new }
{
    lawful_states_are_sound::<T, M>();
    if !is_directory_host(state, pid, host) {
        return refused(Errno::ENOTDIR);
    }
    if !is_shown(state, pid, host) {
        return refused(Errno::ENOENT);
    }
    list_shown(state, pid, channel, host, buf, n)
}

/// Lists what is open.
fn list_open<T: Copy, const M: u8>(
    state: &mut State<T, M>,
    pid: u32,
    channel: Channel,
    buf: u64,
    n: u32,
) -> Outcome
    requires { IsOfViewFor pid state.old }
    ensures performs { PerformsOn pid channel (λ k o. option_map_or (λ p. list_host k channel.fd o.at buf n p.host) o.place (refuse NotDirectory)) state.old state.new result }
    ensures served { result ≢ WantOfMemory → IsServed state.new }
{
    lawful_states_are_sound::<T, M>();
    match channel.host {
        Some(host) => list_host(state, pid, channel, host, buf, n),
        None => refused(Errno::ENOTDIR),
    }
}

/// getdents64(2): EBADF of a descriptor that isn't open, ENOTDIR of what is no directory, ENOENT of one that was removed,
/// EINVAL where the next entry doesn't fit `n` bytes, EFAULT. The number of bytes moved, 0 at the end; the place moves
/// behind the entries that they tell.
pub fn getdents64<T: Copy, const M: u8>(
    state: &mut State<T, M>,
    pid: u32,
    fd: i32,
    buf: u64,
    n: i32,
) -> Outcome
    requires { IsOfViewFor pid state.old }
    ensures performs { Performs pid (λ k. getdents64_row k fd buf n) state.old state.new result }
    ensures served { result ≢ WantOfMemory → IsServed state.new }
{
    lawful_states_are_sound::<T, M>();
    match channel_of(state, pid, fd) {
        Some(channel) => list_open(state, pid, channel, buf, or_zero(n)),
        None => refused(Errno::EBADF),
    }
}

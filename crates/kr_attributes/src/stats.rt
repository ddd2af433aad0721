//! fstat(2) and newfstatat(2).
ghost use Rattle.std.specs.Prelude.{◌≡◌, ◌≢◌, ◌+◌, ◌<◌, ◌^◌, ℕ, length, List};
ghost use Rattle.std.specs.Option.{option_map, option_map_or};
ghost use Rattle.kr_seen.specs.pr_base.declared.errno.Errno.TheVariants.{ENOENT, EBADF};
ghost use Rattle.kr_seen.specs.kr_tree.Tree.{body_is, inode, takes_names};
ghost use Rattle.kr_seen.specs.kr_view.View.{Row};
ghost use Rattle.kr_seen.specs.kr_model.AttributeRows.{console_stat, fstat_row, newfstatat_here, newfstatat_row, node_stat, pipe_stat, process_links, process_stat, stat_host, stat_of, stat_unplaced, tell_stat};
ghost use Rattle.kr_seen.specs.kr_model.Asking.{lives};
ghost use Rattle.kr_seen.specs.kr_model.Known.{Known, known};
ghost use Rattle.kr_seen.specs.kr_model.Operation.{looked_up};
ghost use Rattle.kr_seen.specs.kr_model.Reply.{refuse};
ghost use Rattle.kr_seen.specs.kr_model.Seen.{LooksUp};
ghost use Rattle.kr_seen.specs.kr_model.State.{image_layout};
ghost use Rattle.kr_seen.specs.kr_model.declared.outcome.Outcome.TheVariants.{NoMemory as WantOfMemory};
ghost use Rattle.kr_seen.specs.kr_ops.Meaning.{meaning};
ghost use Rattle.kr_seen.specs.kr_ops.Sound.{IsServed, IsSound, IsSoundFor};
ghost use Rattle.kr_seen.specs.Performing.{PerformsAt, seen_found};
ghost use Rattle.kr_seen.specs.PerformedRows.{Performs};
ghost use Rattle.kr_attributes.specs.Facts.{bits_by, links_by, size_by};

use crate::found::{is_process_directory, is_working_directory, open_object, working_directory};
use kr_seen::below::{
    Errno, Host, Ino, Kind, Meta, Outcome, ProcAt, Stat, State, Target, User, What, proc_inode,
    stat_bytes, trees_are_kept,
};
use kr_seen::{caller, refused};

/// The number of the device on which files are, pipes and the console too.
const DEVICE: u64 = 1;

/// The number of the device on which is what stands in the process directory.
const PROCESS_DEVICE: u64 = 2;

/// S_IFIFO.
const FIFO: u32 = 0o010000;

/// S_IFCHR.
const CHARACTER: u32 = 0o020000;

/// S_IFDIR.
const DIRECTORY: u32 = 0o040000;

/// S_IFREG.
const REGULAR: u32 = 0o100000;

/// S_IFLNK.
const LINK: u32 = 0o120000;

/// How many bytes a directory has.
const DIRECTORY_SIZE: u64 = 4096;

/// newfstatat(2) of a path: EFAULT.
pub fn newfstatat<T: Copy, const M: u8>(
    state: &mut State<T, M>,
    pid: u32,
    target: &Target<T>,
    buf: u64,
) -> Outcome
    requires { IsSoundFor pid state.old }
    ensures performs { (n : T → ℕ) (table : List Row) → PerformsAt target.now pid (λ k. looked_up (seen_found n table pid state.old target.now LooksUp) (λ l. newfstatat_row k l buf)) state.old state.new result }
    ensures served { result ≢ WantOfMemory → IsServed state.new }
{
    match target.found {
        Some(place) => tell_object(state, pid, buf, place.host),
        None => refused(Errno::ENOENT),
    }
}

/// newfstatat(2) of an empty path: the descriptor, or the working directory.
pub fn newfstatat_here<T: Copy, const M: u8>(
    state: &mut State<T, M>,
    pid: u32,
    dirfd: i32,
    buf: u64,
) -> Outcome
    requires { IsSoundFor pid state.old }
    ensures performs { Performs pid (λ k. newfstatat_here k dirfd buf) state.old state.new result }
    ensures served { result ≢ WantOfMemory → IsServed state.new }
{
    if is_working_directory(dirfd) {
        let host = working_directory(state, pid);
        tell_object(state, pid, buf, host)
    } else {
        fstat(state, pid, dirfd, buf)
    }
}

/// fstat(2): EBADF of a descriptor that isn't open, EFAULT.
pub fn fstat<T: Copy, const M: u8>(state: &mut State<T, M>, pid: u32, fd: i32, buf: u64) -> Outcome
    requires { IsSoundFor pid state.old }
    ensures performs { Performs pid (λ k. fstat_row k fd buf) state.old state.new result }
    ensures served { result ≢ WantOfMemory → IsServed state.new }
{
    let Some(object) = open_object(state, pid, fd) else {
        return refused(Errno::EBADF);
    };
    match object.host {
        Some(host) => tell_object(state, pid, buf, host),
        None => tell_unplaced(state, pid, buf, object.what),
    }
}

/// Writes what is told of an object.
fn tell_object<T: Copy, const M: u8>(
    state: &mut State<T, M>,
    pid: u32,
    buf: u64,
    host: Host,
) -> Outcome
    requires { IsSoundFor pid state.old }
    ensures performs { Performs pid (λ k. stat_host k buf host) state.old state.new result }
    ensures served { result ≢ WantOfMemory → IsServed state.new }
{
    match object_stat(state, host) {
        Some(stat) => tell(state, pid, buf, &stat),
        None => refused(Errno::ENOENT),
    }
}

/// Writes what is told of a pipe and of the console.
fn tell_unplaced<T: Copy, const M: u8>(
    state: &mut State<T, M>,
    pid: u32,
    buf: u64,
    what: What,
) -> Outcome
    requires { IsSoundFor pid state.old }
    ensures performs { Performs pid (λ k. stat_unplaced k buf what) state.old state.new result }
    ensures served { result ≢ WantOfMemory → IsServed state.new }
{
    match unplaced_stat(state.user, what) {
        Some(stat) => tell(state, pid, buf, &stat),
        None => refused(Errno::EBADF),
    }
}

/// Writes the structure `stat`: EFAULT.
fn tell<T: Copy, const M: u8>(state: &mut State<T, M>, pid: u32, buf: u64, stat: &Stat) -> Outcome
    requires { IsSoundFor pid state.old }
    ensures performs { Performs pid (λ k. tell_stat buf stat.now) state.old state.new result }
    ensures served { result ≢ WantOfMemory → IsServed state.new }
{
    caller::tell(state, pid, buf, &stat_bytes(stat), 0)
}

/// What is told of an object, `None` exactly where it isn't there.
fn object_stat<T: Copy, const M: u8>(state: &State<T, M>, host: Host) -> Option<Stat>
    requires { IsSound state.now }
    ensures { (pid buf : ℕ) → stat_host (known image_layout pid (meaning state.now)) buf host ≡ option_map_or (tell_stat buf) result (refuse ENOENT) }
{
    match host {
        Host::Node(ino) => node_stat(state, ino),
        Host::Proc(_, at) => Some(process_stat(state, at)),
    }
}

/// What is told of a pipe and of the console, `None` exactly of what has a place. Both have the mode 0600 and are the user's.
fn unplaced_stat(user: User, what: What) -> Option<Stat>
    ensures { (k : Known) (buf : ℕ) → k.user ≡ user → stat_unplaced k buf what ≡ option_map_or (tell_stat buf) result (refuse EBADF) }
{
    match what {
        What::File | What::Dir => None,
        What::In | What::Out | What::Err => {
            Some(stat_of(DEVICE, 0, CHARACTER + 0o600, 1, user, 0))
        }
        What::PipeRead(pipe) | What::PipeWrite(pipe) => {
            Some(stat_of(DEVICE, u64::from(pipe), FIFO + 0o600, 1, user, 0))
        }
    }
}

/// What is told of an inode, `None` exactly where it isn't there.
fn node_stat<T: Copy, const M: u8>(state: &State<T, M>, ino: Ino) -> Option<Stat>
    requires { IsSound state.now }
    ensures { (pid : ℕ) → result ≡ option_map (node_stat (known image_layout pid (meaning state.now)) ino) ((known image_layout pid (meaning state.now)).fact ino) }
{
    let Some(meta) = state.tree.meta(ino) else {
        return None;
    };
    let Some(kind) = state.tree.kind(ino) else {
        return None;
    };
    let mode = kind_bits(kind) + u32::from(meta.mode);
    let links = links(state, ino, kind, meta.names);
    let owner = User {
        uid: meta.uid,
        gid: meta.gid,
    };
    Some(stat_of(DEVICE, u64::from(ino), mode, links, owner, size(kind, meta)))
}

/// The kind of a node as the mode has it.
fn kind_bits(kind: Kind) -> u32
    ensures bits { result ≡ bits_by kind }
    ensures few { result < 2 ^ 16 }
{
    match kind {
        Kind::Dir | Kind::Proc => DIRECTORY,
        Kind::File => REGULAR,
        Kind::Link => LINK,
    }
}

/// How many bytes a node is said to have.
fn size(kind: Kind, meta: Meta) -> u64
    ensures { result ≡ size_by kind meta.size }
{
    match kind {
        Kind::Dir | Kind::Proc => DIRECTORY_SIZE,
        Kind::File | Kind::Link => meta.size,
    }
}

/// How many links a node is said to have: a directory two and one for each directory in it, and none once it was removed; the process
/// directory two and one for each living process.
fn links<T: Copy, const M: u8>(state: &State<T, M>, ino: Ino, kind: Kind, names: u32) -> u32
    requires { IsSound state.now }
    ensures { (pid : ℕ) → result ≡ links_by kind (body_is takes_names state.now.tree ino) names (option_map_or (λ x. x.directories) (inode state.now.tree ino) 0) (length (known image_layout pid (meaning state.now)).living) }
{
    match kind {
        Kind::Dir => {
            if state.tree.takes_names(ino) {
                2 + directories(state, ino)
            } else {
                0
            }
        }
        Kind::File | Kind::Link => names,
        Kind::Proc => 2 + living(state),
    }
}

/// How many entries of a directory are directories.
fn directories<T: Copy, const M: u8>(state: &State<T, M>, ino: Ino) -> u32
    ensures count { result ≡ option_map_or (λ x. x.directories) (inode state.now.tree ino) 0 }
    ensures few { result + 2 < 2 ^ 32 }
{
    trees_are_kept(&state.tree);
    state.tree.directories(ino)
}

/// How many processes live.
fn living<T: Copy, const M: u8>(state: &State<T, M>) -> u32
    requires { IsSound state.now }
    ensures count { (pid : ℕ) → result ≡ length (known image_layout pid (meaning state.now)).living }
    ensures few { result + 2 < 2 ^ 32 }
{
    state.living.len() as u32
}

/// What is told of what stands in the process directory: a directory of mode 0555, or a link of mode 0777 without bytes.
fn process_stat<T: Copy, const M: u8>(state: &State<T, M>, at: ProcAt) -> Stat
    requires { IsSound state.now }
    ensures { (pid : ℕ) → result ≡ process_stat (known image_layout pid (meaning state.now)) at }
{
    let ino = proc_inode(at);
    if is_process_directory(at) {
        let links = process_links(state, at);
        stat_of(
            PROCESS_DEVICE,
            ino,
            DIRECTORY + 0o555,
            links,
            state.user,
            DIRECTORY_SIZE,
        )
    } else {
        stat_of(PROCESS_DEVICE, ino, LINK + 0o777, 1, state.user, 0)
    }
}

/// How many links it has: a process's directory one more for its `fd`, and both none once it ended.
fn process_links<T: Copy, const M: u8>(state: &State<T, M>, at: ProcAt) -> u32
    requires { IsSound state.now }
    ensures { (pid : ℕ) → result ≡ process_links (known image_layout pid (meaning state.now)) at }
{
    match at {
        ProcAt::Dir(number) => { if lives(state, number) { 3 } else { 0 } }
        ProcAt::FdDir(number) => { if lives(state, number) { 2 } else { 0 } }
        ProcAt::SelfLink | ProcAt::Cwd(_) | ProcAt::Root(_) | ProcAt::Exe(_) | ProcAt::Fd(_, _) =>
            1,
    }
}

/// Whether a process lives.
fn lives<T: Copy, const M: u8>(state: &State<T, M>, number: u32) -> bool
    requires { IsSound state.now }
    ensures { (pid : ℕ) → result ≡ lives (known image_layout pid (meaning state.now)) number }
{
    state.index_of(number).is_some()
}

/// The structure with these fields, with blocks of 512 bytes, rounded up.
fn stat_of(dev: u64, ino: u64, mode: u32, nlink: u32, owner: User, size: u64) -> Stat
    ensures { result ≡ stat_of dev ino mode nlink owner.uid owner.gid size }
{
    Stat {
        dev,
        ino,
        mode,
        nlink,
        uid: owner.uid,
        gid: owner.gid,
        rdev: 0,
        size,
        blksize: 4096,
        blocks: size.div_ceil(512),
    }
}

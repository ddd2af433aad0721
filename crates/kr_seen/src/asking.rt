//! What calls with paths ask of a state.
ghost use Rattle.std.specs.Prelude.{◌≡◌, ℕ, true, IfOk};
ghost use Rattle.kr_ops.specs.kr_tree.Tree.{body_is, takes_names};
ghost use Rattle.kr_ops.specs.kr_view.Component.{is_directory_at};
ghost use Rattle.kr_ops.specs.kr_model.Asking.{is_directory_host, is_over, is_processes_host, is_searched, lives, process_of};
ghost use Rattle.kr_ops.specs.kr_model.Known.{known};
ghost use Rattle.kr_ops.specs.kr_model.State.{image_layout};
ghost use Rattle.kr_ops.specs.kr_tree.declared.place.Host.TheVariants.{Node};
ghost use Rattle.kr_ops.specs.Meaning.{meaning};
ghost use Rattle.kr_ops.specs.Sound.{IsSound};
ghost use Rattle.kr_seen.specs.Asked.{IsWritable};

use kr_ops::State;
use kr_ops::below::{Host, Ino, Kind, ProcAt, Right};
use kr_walk::below::Errno;

/// Whether an object is a directory: one of the tree, the process directory, or one in it.
pub fn is_directory_host<T: Copy, const M: u8>(state: &State<T, M>, host: Host) -> bool
    ensures tree { result ≡ is_directory_at state.now.tree host }
    ensures known { (pid : ℕ) → result ≡ is_directory_host (known image_layout pid (meaning state.now)) host }
{
    match host {
        Host::Node(ino) => state.tree.is_directory(ino),
        Host::Proc(_, at) => matches!(at, ProcAt::Dir(_) | ProcAt::FdDir(_)),
    }
}

/// Whether an object is the process directory itself.
pub fn is_processes_host<T: Copy, const M: u8>(state: &State<T, M>, host: Host) -> bool
    ensures { (pid : ℕ) → result ≡ is_processes_host (known image_layout pid (meaning state.now)) host }
{
    match host {
        Host::Node(ino) => matches!(state.tree.kind(ino), Some(Kind::Proc)),
        Host::Proc(_, _) => false,
    }
}

/// Whether the user may search a directory. Those in the process directory may be searched.
pub fn is_searched<T: Copy, const M: u8>(state: &State<T, M>, host: Host) -> bool
    ensures { (pid : ℕ) → result ≡ is_searched (known image_layout pid (meaning state.now)) host }
{
    match host {
        Host::Node(ino) => state.tree.may(state.user, ino, Right::Search),
        Host::Proc(_, _) => true,
    }
}

/// Whether a process lives.
fn lives<T: Copy, const M: u8>(state: &State<T, M>, number: u32) -> bool
    requires { IsSound state.now }
    ensures { (pid : ℕ) → result ≡ lives (known image_layout pid (meaning state.now)) number }
{
    state.index_of(number).is_some()
}

/// The process to which an object of the process directory belongs; `self` belongs to none.
fn process_of(at: ProcAt) -> Option<u32>
    ensures { result ≡ process_of at }
{
    match at {
        ProcAt::SelfLink => None,
        ProcAt::Dir(pid)
        | ProcAt::Cwd(pid)
        | ProcAt::Root(pid)
        | ProcAt::Exe(pid)
        | ProcAt::FdDir(pid)
        | ProcAt::Fd(pid, _) => Some(pid),
    }
}

/// Whether what stands in the process directory went with its process.
fn is_over<T: Copy, const M: u8>(state: &State<T, M>, at: ProcAt) -> bool
    requires { IsSound state.now }
    ensures { (pid : ℕ) → result ≡ is_over (known image_layout pid (meaning state.now)) at }
{
    match process_of(at) {
        Some(pid) => !lives(state, pid),
        None => false,
    }
}

/// The inode of a directory to which the user may write, ENOENT of one that was removed, and EACCES of one without write or
/// search. Nobody may write to the process directory and to those in it.
pub fn writable<T: Copy, const M: u8>(state: &State<T, M>, host: Host) -> Result<Ino, Errno>
    requires { IsSound state.now }
    ensures row { (pid : ℕ) → IsWritable (known image_layout pid (meaning state.now)) host result }
    ensures takes { IfOk result (λ dir. (host ≡ Node dir) × (body_is takes_names state.now.tree dir ≡ true)) }
{
    match host {
        Host::Node(ino) => writable_node(state, ino),
        Host::Proc(_, at) => {
            if is_over(state, at) {
                Err(Errno::ENOENT)
            } else {
                Err(Errno::EACCES)
            }
        }
    }
}

/// The inode of a directory in which the user may add and remove names, or why it isn't one.
fn writable_node<T: Copy, const M: u8>(state: &State<T, M>, ino: Ino) -> Result<Ino, Errno>
    ensures row { (pid : ℕ) → IsWritable (known image_layout pid (meaning state.now)) (Node ino) result }
    ensures takes { IfOk result (λ dir. (dir ≡ ino) × (body_is takes_names state.now.tree dir ≡ true)) }
{
    match state.tree.kind(ino) {
        Some(Kind::Dir) => {
            if !state.tree.takes_names(ino) {
                return Err(Errno::ENOENT);
            }
            let may_write = state.tree.may(state.user, ino, Right::Write);
            if may_write && state.tree.may(state.user, ino, Right::Search) {
                Ok(ino)
            } else {
                Err(Errno::EACCES)
            }
        }
        Some(Kind::File | Kind::Link) => Err(Errno::ENOTDIR),
        Some(Kind::Proc) => Err(Errno::EACCES),
        None => Err(Errno::ENOENT),
    }
}

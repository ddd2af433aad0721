//! What stands above what.
ghost use Rattle.std.specs.Prelude.{◌≡◌, ◌+◌, ◌<◌, ◌^◌, ℕ};
ghost use Rattle.kr_seen.specs.kr_model.Asking.{same_at, same_host};
ghost use Rattle.kr_seen.specs.kr_model.Known.{known};
ghost use Rattle.kr_seen.specs.kr_model.NameRows.{host_above, is_above_old, is_at_or_above, is_one};
ghost use Rattle.kr_seen.specs.kr_model.State.{image_layout};
ghost use Rattle.kr_seen.specs.kr_ops.Meaning.{meaning};

use kr_seen::below::{Host, ProcAt, ROOT, State};

/// Whether two objects of the process directory are one.
fn same_at(a: ProcAt, b: ProcAt) -> bool
    ensures { result ≡ same_at a b }
{
    match (a, b) {
        (ProcAt::SelfLink, ProcAt::SelfLink) => true,
        (ProcAt::Dir(p), ProcAt::Dir(q)) => p == q,
        (ProcAt::Cwd(p), ProcAt::Cwd(q)) => p == q,
        (ProcAt::Root(p), ProcAt::Root(q)) => p == q,
        (ProcAt::Exe(p), ProcAt::Exe(q)) => p == q,
        (ProcAt::FdDir(p), ProcAt::FdDir(q)) => p == q,
        (ProcAt::Fd(p, f), ProcAt::Fd(q, g)) => p == q && f == g,
        _ => false,
    }
}

/// Whether two objects are one.
pub(crate) fn same_host(a: Host, b: Host) -> bool
    ensures { result ≡ same_host a b }
{
    match (a, b) {
        (Host::Node(i), Host::Node(j)) => i == j,
        (Host::Proc(i, at), Host::Proc(j, to)) => i == j && same_at(at, to),
        _ => false,
    }
}

/// The directory above one; `None` exactly where there is none.
fn host_above<T: Copy, const M: u8>(state: &State<T, M>, host: Host) -> Option<Host>
    ensures { (pid : ℕ) → result ≡ host_above (known image_layout pid (meaning state.now)) host }
{
    match host {
        Host::Node(ino) => {
            if ino == ROOT {
                return None;
            }
            match state.tree.above(ino) {
                Some(up) => Some(Host::Node(up)),
                None => None,
            }
        }
        Host::Proc(ino, at) => match at {
            ProcAt::Dir(_) => Some(Host::Node(ino)),
            ProcAt::FdDir(pid) => Some(Host::Proc(ino, ProcAt::Dir(pid))),
            _ => None,
        },
    }
}

/// Whether a directory stands at another or below it.
pub(crate) fn is_at_or_above<T: Copy, const M: u8>(
    state: &State<T, M>,
    top: Host,
    dir: Host,
) -> bool
    ensures { (pid : ℕ) → result ≡ is_at_or_above (known image_layout pid (meaning state.now)) top dir }
{
    // No directory is met twice on the way up, so it has fewer steps than numbers were drawn, and two in the process directory.
    let limit = u64::from(state.tree.next_number()) + 2;
    let mut at = dir;
    for _step in 0..limit {
        if same_host(top, at) {
            return true;
        }
        match host_above(state, at) {
            Some(up) => at = up,
            None => return false,
        }
    }
    false
}

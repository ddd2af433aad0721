//! New nodes under names of directories.
ghost use Rattle.std.specs.Prelude.{◌≡◌, ◌≢◌, ◌+◌, ◌<◌, ◌^◌, ℕ, false};
ghost use Rattle.kr_seen.specs.kr_inode.Stored.{body_of_new};
ghost use Rattle.kr_seen.specs.kr_tree.Changes.{is_too_big, next_serial};
ghost use Rattle.kr_seen.specs.kr_model.Applied.{Mounts};
ghost use Rattle.kr_seen.specs.kr_model.Asking.{unmasked, writable};
ghost use Rattle.kr_seen.specs.kr_model.Known.{known};
ghost use Rattle.kr_seen.specs.kr_model.State.{image_layout, inode_of as host_inode};
ghost use Rattle.kr_seen.specs.kr_model.declared.outcome.Outcome.TheVariants.{NoMemory as WantOfMemory};
ghost use Rattle.kr_seen.specs.kr_ops.Meaning.{meaning};
ghost use Rattle.kr_seen.specs.kr_ops.Sound.{IsServed, IsSound, IsSoundFor};
ghost use Rattle.kr_seen.specs.Carrying.{CarriesOut};
ghost use Rattle.kr_names.specs.Adding.{adding, IsFreeName};

use kr_seen::below::{Errno, Host, MODES, Meta, Node, Outcome, State, TreeRefusal};
use kr_seen::{number, refused, writable};

/// The bits of a mode that there are.
const MODE_BITS: u16 = (MODES - 1) as u16;

/// The bits of a mode that a living caller's mask lets through, of the twelve that there are.
pub(crate) fn unmasked<T: Copy, const M: u8>(state: &State<T, M>, pid: u32, mode: u32) -> u16
    requires { IsSoundFor pid state.now }
    ensures bits { result ≡ unmasked (known image_layout pid (meaning state.now)) mode }
    ensures small { result < 4096 }
{
    let Some(k) = state.index_of(pid) else {
        unreachable!();
    };
    let let_through = MODE_BITS.saturating_sub(state.living[k].umask);
    (mode & u32::from(let_through)) as u16
}

/// Puts a new node of the user's under a name of a directory: ENOENT or EACCES of the directory, ENOSPC.
pub(crate) fn add_named<T: Copy, const M: u8>(
    state: &mut State<T, M>,
    pid: u32,
    dir: Host,
    name: &[u8],
    node: Node,
    mode: u16,
) -> Outcome
    requires sound { IsSound state.old }
    requires free { IsFreeName state.old.tree dir name.now }
    requires small { is_too_big (body_of_new node) ≡ false }
    requires numbers { state.old.tree.next + 1 < 2 ^ 32 }
    requires serials { next_serial state.old.tree (host_inode dir) + 1 < 2 ^ 64 }
    ensures performs { (mounts : Mounts T) → CarriesOut mounts pid (λ k. writable k dir (adding k name.now mode (body_of_new node))) state.old state.new result }
    ensures served { result ≢ WantOfMemory → IsServed state.new }
{
    let ino = match writable(state, dir) {
        Ok(ino) => ino,
        Err(errno) => return refused(errno),
    };
    let meta = Meta {
        mode,
        uid: state.user.uid,
        gid: state.user.gid,
        names: 0,
        size: 0,
    };
    match state.add_node(ino, name, node, meta) {
        Ok(_ino) => number(0),
        Err(TreeRefusal::Full) => refused(Errno::ENOSPC),
        Err(TreeRefusal::TooBig) => unreachable!(),
        Err(TreeRefusal::NoMemory) => Outcome::NoMemory,
    }
}

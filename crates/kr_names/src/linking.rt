//! Other names of what is there.
ghost use Rattle.std.specs.Prelude.{◌≡◌, ◌≢◌, ◌+◌, ◌<◌, ◌^◌, ◌↔◌, ℕ, true, None, IsTrue, IsErrOf, OnOk, OnErr};
ghost use Rattle.kr_seen.specs.kr_tree.Names.{is_name};
ghost use Rattle.kr_seen.specs.kr_tree.Tree.{body_is, entry, may_be_linked, takes_names};
ghost use Rattle.kr_seen.specs.kr_model.Change.{LinkNode};
ghost use Rattle.kr_seen.specs.kr_ops.Making.{Makes};
ghost use Rattle.kr_seen.specs.kr_tree.Changes.{has_no_name_left, next_serial};
ghost use Rattle.kr_seen.specs.kr_view.InTree.{IsObjectOf};
ghost use Rattle.kr_seen.specs.kr_model.Applied.{Mounts};
ghost use Rattle.kr_seen.specs.kr_model.NameRows.{link_host};
ghost use Rattle.kr_seen.specs.kr_model.Operation.{linked as if_linked};
ghost use Rattle.kr_seen.specs.kr_model.State.{inode_of as host_inode};
ghost use Rattle.kr_seen.specs.kr_model.declared.outcome.Outcome.TheVariants.{NoMemory as WantOfMemory};
ghost use Rattle.kr_seen.specs.kr_ops.Meaning.{meaning};
ghost use Rattle.kr_seen.specs.kr_ops.Sound.{IsServed, IsSound};
ghost use Rattle.kr_seen.specs.Carrying.{CarriesOut};
ghost use Rattle.kr_seen.specs.Performing.{PerformsAt, seen_linked};
ghost use Rattle.kr_seen.specs.Resolved.{IsFoundIn, IsFreeIn};
ghost use Rattle.kr_names.specs.Adding.{IsFreeName};

use kr_seen::below::{Errno, Host, Ino, Outcome, Places, State, Target, TreeRefusal};
use kr_seen::{Made, linked, number, refused, writable};

/// Puts another name of a file or a link into a directory. It makes no file bigger.
fn link_node<T: Copy, const M: u8>(
    state: &mut State<T, M>,
    dir: Ino,
    name: &[u8],
    ino: Ino,
) -> Result<(), TreeRefusal>
    requires directory { body_is takes_names state.old.tree dir ≡ true }
    requires well_formed { is_name name.now ≡ true }
    requires free { entry state.old.tree dir name.now ≡ None }
    requires serials { next_serial state.old.tree dir + 1 < 2 ^ 64 }
    requires file { body_is may_be_linked state.old.tree ino ≡ true }
    ensures full { IsErrOf result TreeRefusal.Full ↔ IsTrue (has_no_name_left state.old.tree) }
    ensures never_too_big { ¬ IsErrOf result TreeRefusal.TooBig }
    ensures ok { (pid : ℕ) → OnOk result (Makes pid (LinkNode dir name.now ino) state.old state.new) }
    ensures served { IsServed state.old → IsServed state.new }
    ensures err { OnErr result (meaning state.new ≡ meaning state.old) }
{
    state.tree.link(dir, name, ino)
}

/// Gives an object another name: EPERM of a directory and of what is in the process directory; ENOENT or EACCES of the new
/// directory, ENOSPC.
fn link_host<T: Copy, const M: u8>(
    state: &mut State<T, M>,
    pid: u32,
    old: Host,
    dir: Host,
    name: &[u8],
) -> Outcome
    requires sound { IsSound state.old }
    requires object { IsObjectOf state.old.tree old }
    requires free { IsFreeName state.old.tree dir name.now }
    requires serials { next_serial state.old.tree (host_inode dir) + 1 < 2 ^ 64 }
    ensures performs { (mounts : Mounts T) → CarriesOut mounts pid (λ k. link_host k old dir name.now) state.old state.new result }
    ensures served { result ≢ WantOfMemory → IsServed state.new }
{
    let ino = match old {
        Host::Node(ino) => ino,
        Host::Proc(_, _) => return refused(Errno::EPERM),
    };
    if state.tree.is_directory(ino) {
        return refused(Errno::EPERM);
    }
    let dir = match writable(state, dir) {
        Ok(dir) => dir,
        Err(errno) => return refused(errno),
    };
    match link_node(state, dir, name, ino) {
        Ok(()) => number(0),
        Err(TreeRefusal::Full) => refused(Errno::ENOSPC),
        Err(TreeRefusal::TooBig) => unreachable!(),
        Err(TreeRefusal::NoMemory) => Outcome::NoMemory,
    }
}

/// linkat(2): EEXIST of an ending that is no name, and of what is there; ENOENT of a slash; EXDEV where the new directory is in
/// another mount; EPERM of a directory and of what is in the process directory; ENOENT or EACCES of the new directory, ENOSPC.
pub fn linkat<P: Places, const M: u8>(
    state: &mut State<P::Mount, M>,
    places: &P,
    pid: u32,
    old: &Target<P::Mount>,
    new: &Target<P::Mount>,
) -> Outcome
    requires sound { IsSound state.old }
    requires found { IsFoundIn state.old.tree old.now }
    requires free { IsFreeIn state.old.tree new.now }
    requires serials { next_serial state.old.tree (host_inode new.now.dir.host) + 1 < 2 ^ 64 }
    ensures performs { PerformsAt old.now pid (λ k. if_linked (seen_linked P.number (P.mounts places.now) pid state.old old.now new.now) k) state.old state.new result }
    ensures served { result ≢ WantOfMemory → IsServed state.new }
{
    let Some(linked) = linked(places, state, old, new) else {
        return refused(Errno::ENOENT);
    };
    match linked.new {
        Made::NoName(_last) => refused(Errno::EEXIST),
        Made::Over => refused(Errno::EEXIST),
        Made::Makes { dir, name, slash } => {
            if slash {
                return refused(Errno::ENOENT);
            }
            if !linked.same_mount {
                return refused(Errno::EXDEV);
            }
            link_host(state, pid, linked.old.host, dir, name)
        }
    }
}

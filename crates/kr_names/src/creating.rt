//! Opening what isn't there.
ghost use Rattle.std.specs.Prelude.{◌≡◌, ◌≢◌, ◌+◌, ◌<◌, ◌^◌, ℕ, Some};
ghost use Rattle.kr_seen.specs.kr_tree.Changes.{next_serial};
ghost use Rattle.kr_seen.specs.kr_tree.Lawful.{AreBytes};
ghost use Rattle.kr_seen.specs.kr_model.Applied.{Mounts};
ghost use Rattle.kr_seen.specs.kr_model.FileRows.{open_new};
ghost use Rattle.kr_seen.specs.kr_model.State.{inode_of as host_inode};
ghost use Rattle.kr_seen.specs.kr_model.declared.outcome.Outcome.TheVariants.{NoMemory as WantOfMemory};
ghost use Rattle.kr_seen.specs.kr_ops.Sound.{IsOfView, IsServed, IsSoundFor};
ghost use Rattle.kr_seen.specs.Carrying.{CarriesOut};
ghost use Rattle.kr_names.specs.Adding.{IsFreeName};

use crate::adding::unmasked;
use crate::flags::closes_on_exec;
use crate::found::opened_as;
use kr_seen::below::{
    Bytes, Errno, FilesRefusal, Host, Meta, NoMemory, Node, Outcome, Place, State, TreeRefusal,
    What,
};
use kr_seen::{number, refused, writable};
use std::alloc::Global;

/// That bytes are below 256, which a proof is told of a slice alone.
fn are_bytes(bytes: &[u8])
    ensures { AreBytes bytes.now }
{}

/// Makes a file and opens it: ENOENT or EACCES of its directory, EMFILE, ENOSPC. The file is the user's, and has the mode's twelve
/// bits but for those of the mask.
pub(crate) fn open_new<T: Copy, const M: u8>(
    alloc: Global,
    state: &mut State<T, M>,
    pid: u32,
    mount: T,
    dir: Host,
    name: &[u8],
    flags: u32,
    mode: u32,
) -> Outcome
    requires view { IsOfView state.old }
    requires caller { IsSoundFor pid state.old }
    requires free { IsFreeName state.old.tree dir name.now }
    requires numbers { state.old.tree.next + 1 < 2 ^ 32 }
    requires serials { next_serial state.old.tree (host_inode dir) + 1 < 2 ^ 64 }
    requires files { state.old.files.table.last_file + 1 < 2 ^ 64 }
    ensures performs { (mounts : Mounts T) → mounts.directory ≡ Some mount → CarriesOut mounts pid (λ k. open_new k flags mode dir name.now) state.old state.new result }
    ensures served { result ≢ WantOfMemory → IsServed state.new }
{
    are_bytes(name);
    let dir = match writable(state, dir) {
        Ok(dir) => dir,
        Err(errno) => return refused(errno),
    };
    let Some(_fd) = state.lowest_free(pid, 0) else {
        return refused(Errno::EMFILE);
    };
    let remembered = match Bytes::copy(alloc, name) {
        Ok(remembered) => remembered,
        Err(NoMemory) => return Outcome::NoMemory,
    };
    let meta = Meta {
        mode: unmasked(state, pid, mode),
        uid: state.user.uid,
        gid: state.user.gid,
        names: 0,
        size: 0,
    };
    let ino = match state.add_node(dir, name, Node::File(Bytes::new(alloc)), meta) {
        Ok(ino) => ino,
        Err(TreeRefusal::Full) => return refused(Errno::ENOSPC),
        Err(TreeRefusal::TooBig) => unreachable!(),
        Err(TreeRefusal::NoMemory) => return Outcome::NoMemory,
    };
    let place = Place {
        mount,
        host: Host::Node(ino),
    };
    let opened = opened_as(place, What::File, dir, remembered, flags);
    match state.open(pid, opened, closes_on_exec(flags)) {
        Ok(fd) => number(fd),
        // As many descriptors are free as were before the file was made.
        Err(FilesRefusal::Full) => unreachable!(),
        Err(FilesRefusal::NoMemory) => Outcome::NoMemory,
    }
}

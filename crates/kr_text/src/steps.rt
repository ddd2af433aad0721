//! What a line adds to a tree.
ghost use Rattle.std.specs.Prelude.{◌≡◌, true, None, OnOk};
ghost use Rattle.kr_tree.specs.Tree.{body_is, takes_names, is_file, entry};
ghost use Rattle.kr_tree.specs.Names.{is_name};
ghost use Rattle.kr_tree.specs.kr_inode.Stored.{body_of_new};
ghost use Rattle.kr_text.specs.Answers.{Changes};
ghost use Rattle.kr_text.specs.Drawn.{IsDrawn};
ghost use Rattle.kr_text.specs.Reading.{put, node_put, elf_put, proc_put, link_put, name_put};

use crate::fault::{LineFault, TreeWhy};
use crate::line::Owner;
use crate::path::Path;
use crate::walk::{Spot, file_at, place_below};
use kr_tree::below::pr_base::Bytes;
use kr_tree::laws::trees_are_kept;
use kr_tree::{Ino, Meta, Node, Tree, TreeRefusal};

/// Adds a node at a place.
#[tactic(auto, using(crate::proofs::DrawnLemmas::numbers_fit, crate::proofs::DrawnLemmas::put_drawn))]
fn put(tree: &mut Tree, spot: Spot<'_>, owner: Owner, node: Node) -> Result<(), LineFault>
    requires directory { body_is takes_names tree.old spot.dir ≡ true }
    requires free { entry tree.old spot.dir spot.name.now ≡ None }
    requires well_formed { is_name spot.name.now ≡ true }
    requires drawn { IsDrawn tree.old }
    ensures tree { Changes (put owner (body_of_new node) tree.old (spot.entry.dir, spot.entry.name.now)) result tree.new }
    ensures drawn { OnOk result (IsDrawn tree.new) }
{
    trees_are_kept(tree);
    let meta = Meta {
        mode: owner.mode,
        uid: owner.uid,
        gid: owner.gid,
        names: 0,
        size: 0,
    };
    match tree.add(spot.dir, spot.name, node, meta) {
        Ok(_ino) => Ok(()),
        Err(TreeRefusal::TooBig) => Err(LineFault::Bad(TreeWhy::TooBig)),
        Err(TreeRefusal::Full) => Err(LineFault::Bad(TreeWhy::TooBig)),
        Err(TreeRefusal::NoMemory) => Err(LineFault::NoMemory),
    }
}

/// Adds a node at a path.
pub(crate) fn node_put(
    tree: &mut Tree,
    path: &Path,
    owner: Owner,
    node: Node,
) -> Result<(), LineFault>
    requires { IsDrawn tree.old }
    ensures tree { Changes (node_put owner path.now (body_of_new node) tree.old) result tree.new }
    ensures drawn { OnOk result (IsDrawn tree.new) }
{
    let spot = place_below(tree, path)?;
    put(tree, spot, owner, node)
}

/// Adds a file with the bytes of the ELF source at a path, where it is the first one.
pub(crate) fn elf_put(
    tree: &mut Tree,
    path: &Path,
    owner: Owner,
    elf: Bytes,
    has_elf: bool,
) -> Result<(), LineFault>
    requires { IsDrawn tree.old }
    ensures tree { Changes (elf_put owner path.now elf has_elf tree.old) result tree.new }
    ensures drawn { OnOk result (IsDrawn tree.new) }
{
    let spot = place_below(tree, path)?;
    if has_elf {
        Err(LineFault::Bad(TreeWhy::TwoElf))
    } else {
        put(tree, spot, owner, Node::File(elf))
    }
}

/// Mode, owner and group of the process directory.
const PROC_OWNER: Owner = Owner {
    mode: 0o555,
    uid: 0,
    gid: 0,
};

/// Adds the process directory at a path, where it is the first one.
pub(crate) fn proc_put(tree: &mut Tree, path: &Path, has_proc: bool) -> Result<(), LineFault>
    requires { IsDrawn tree.old }
    ensures tree { Changes (proc_put path.now has_proc tree.old) result tree.new }
    ensures drawn { OnOk result (IsDrawn tree.new) }
{
    let spot = place_below(tree, path)?;
    if has_proc {
        Err(LineFault::Bad(TreeWhy::Twice))
    } else {
        put(tree, spot, PROC_OWNER, Node::Proc)
    }
}

/// Adds a further name of a file at a place.
#[tactic(auto, using(crate::proofs::DrawnLemmas::serial_fits, crate::proofs::DrawnLemmas::linked_drawn, crate::proofs::DrawnLemmas::file_linked))]
fn link(tree: &mut Tree, spot: Spot<'_>, file: Ino) -> Result<(), LineFault>
    requires directory { body_is takes_names tree.old spot.dir ≡ true }
    requires free { entry tree.old spot.dir spot.name.now ≡ None }
    requires well_formed { is_name spot.name.now ≡ true }
    requires file { body_is is_file tree.old file ≡ true }
    requires drawn { IsDrawn tree.old }
    ensures tree { Changes (link_put tree.old (spot.entry.dir, spot.entry.name.now) file) result tree.new }
    ensures drawn { OnOk result (IsDrawn tree.new) }
{
    trees_are_kept(tree);
    match tree.link(spot.dir, spot.name, file) {
        Ok(()) => Ok(()),
        Err(TreeRefusal::NoMemory) => Err(LineFault::NoMemory),
        Err(TreeRefusal::TooBig) => Err(LineFault::Bad(TreeWhy::TooBig)),
        Err(TreeRefusal::Full) => Err(LineFault::Bad(TreeWhy::TooBig)),
    }
}

/// Adds a further name of the file that another path names.
pub(crate) fn name_put(tree: &mut Tree, path: &Path, existing: &Path) -> Result<(), LineFault>
    requires { IsDrawn tree.old }
    ensures tree { Changes (name_put path.now existing.now tree.old) result tree.new }
    ensures drawn { OnOk result (IsDrawn tree.new) }
{
    let spot = place_below(tree, path)?;
    let file = file_at(tree, existing)?;
    link(tree, spot, file)
}

//! A tree with its user, and the mounts that stand in it.
ghost use Rattle.std.specs.Prelude.{◌≡◌, IfOk};
ghost use Rattle.law_walks.specs.pt_bind.Binding.{rows_of};
ghost use Rattle.law_walks.specs.kr_mounts.Bounds.{AreNumbered};
ghost use Rattle.law_walks.specs.kr_mounts.MountTable.{settling};
ghost use Rattle.law_walks.specs.kr_mounts.Standing.{texts_of};
ghost use Rattle.law_walks.specs.kr_mounts.Stored.{table_of};
ghost use Rattle.kr_start.specs.Ready.{IsOfListing, IsReady, IsStaged};

use crate::listed::read_trees_last;
use elf_load::below::pr_base::Bind;
use kr_text::below::kr_tree::laws::trees_are_kept;
use kr_text::below::kr_tree::{Tree, User};
use law_walks::below::{BindFault, Mounted, Table, settle};
use law_walks::start::settled_bindings_are_settled;
use std::alloc::Global;

/// More mounts than this have no numbers in a kernel.
const MOST_MOUNTS: usize = 0xffff_ffff;

/// A tree with its user, and the mounts that stand in it.
#[derive(Drop)]
pub struct Stage {
    pub tree: Tree,
    pub user: User,
    /// The view that enters the mounts.
    pub places: Mounted,
    /// The same bindings by their texts, for a tracer.
    pub texts: Table,
}

/// The tree of a listing in which a root and bindings are settled, with the view that enters their mounts: what a kernel can begin on; and
/// with the texts of the bindings, for a tracer. The first binding that is refused is told by its index, the root's is 0. More than 2^32 - 1 mounts are answered as want of memory.
pub fn settled(
    alloc: Global,
    tree: Tree,
    user: User,
    root: &[u8],
    binds: &[Bind],
) -> Result<Stage, BindFault>
    requires listing { IsOfListing tree user }
    requires numbered { AreNumbered binds.now }
    ensures staged { IsStaged user (settling tree user root.now binds.now) result }
    ensures ready { IfOk result (λ stage. IsReady stage.tree stage.user (table_of stage.places)) }
    ensures texts { IfOk result (λ stage. rows_of stage.texts ≡ texts_of (table_of stage.places)) }
{
    trees_are_kept(&tree);
    read_trees_last();
    settled_bindings_are_settled();
    let mut tree = tree;
    let settled = settle(alloc, &mut tree, user, root, binds)?;
    if settled.bounds().len() > MOST_MOUNTS {
        return Err(BindFault::NoMemory);
    }
    let places = Mounted::build(alloc, &settled, &tree)?;
    let texts = Table::build(alloc, settled.bounds())?;
    Ok(Stage {
        tree,
        user,
        places,
        texts,
    })
}

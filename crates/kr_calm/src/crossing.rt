//! Links and renames that lead from mount to mount, or out of a source or a mount point.
ghost use Rattle.std.specs.Prelude.{◌≡◌};
ghost use Rattle.kr_seen.specs.kr_model.Walks as walks;
ghost use Rattle.kr_seen.specs.CallWalks.{IsTold};
ghost use Rattle.kr_seen.specs.Placed.{placed_in};
ghost use Rattle.kr_calm.specs.Questions.{HaveFewPoints};
ghost use Rattle.kr_calm.specs.Rules.{are_parted, crosses, link_crosses, rename_crosses};

use crate::rows::{RowQuestion, any_row};
use crate::uses::inode_of;
use kr_seen::Targets;
use kr_seen::below::{Host, Places, Request, Target, Tree};

/// Whether two directories lie below different sources or mount points.
fn are_parted<P: Places>(places: &P, tree: &Tree, one: Host, other: Host) -> bool
    requires { HaveFewPoints (P.mounts places.now) }
    ensures { result ≡ are_parted (P.mounts places.now) tree.now one other }
{
    any_row(
        places,
        tree,
        RowQuestion::Between(inode_of(one), inode_of(other)),
    )
}

/// Whether what is found and the directory of its new name are in different mounts.
fn link_crosses<P: Places>(places: &P, old: &Target<P::Mount>, new: &Target<P::Mount>) -> bool
    ensures { result ≡ link_crosses (placed_in P.number old.now) (placed_in P.number new.now) }
{
    match old.found {
        Some(found) => !places.same(found.mount, new.dir.mount),
        None => false,
    }
}

/// Whether the directories of two entries are in different mounts, or lie below different sources or mount points.
fn rename_crosses<P: Places>(
    places: &P,
    tree: &Tree,
    old: &Target<P::Mount>,
    new: &Target<P::Mount>,
) -> bool
    requires { HaveFewPoints (P.mounts places.now) }
    ensures { result ≡ rename_crosses (P.mounts places.now) tree.now (placed_in P.number old.now) (placed_in P.number new.now) }
{
    !places.same(old.dir.mount, new.dir.mount)
        || are_parted(places, tree, old.dir.host, new.dir.host)
}

/// Whether a call whose walks succeeded is a link or a rename that leads from mount to mount, or a rename that leads out of or into
/// a source or a mount point (rule 2). It is judged whatever the call answers.
pub fn crosses<P: Places>(
    places: &P,
    tree: &Tree,
    request: &Request,
    targets: &Targets<P::Mount>,
) -> bool
    requires { HaveFewPoints (P.mounts places.now) }
    ensures { (t : walks.Targets) → IsTold P.number t.first targets.now.first → IsTold P.number t.second targets.now.second → result ≡ crosses (P.mounts places.now) tree.now request.now t }
{
    let (Some(old), Some(new)) = (&targets.first, &targets.second) else {
        return false;
    };
    match request {
        Request::Linkat { .. } => link_crosses(places, old, new),
        Request::Renameat2 { .. } => rename_crosses(places, tree, old, new),
        _ => false,
    }
}

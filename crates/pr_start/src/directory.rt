//! The first working directory.
ghost use Rattle.std.specs.Prelude.{◌≡◌, IfOk, OnOk};
ghost use Rattle.std.specs.Option.{option_map};
ghost use Rattle.kr_core.specs.kr_mounts.Stored.{table_of};
ghost use Rattle.kr_core.specs.kr_view.Component.{may_search};
ghost use Rattle.kr_core.specs.kr_view.Leads.{numbered};
ghost use Rattle.pr_start.specs.Directory.{directory_reach, searchable_at, working_directory};
ghost use Rattle.pr_start.specs.Numbers.{number_of, directory_told};

use kr_core::below::{MountNumber, Places, Reach, Stage, directory_at};
use pt_first::below::{Bytes, Host, NoMemory, Place, Right, Tree, User, is_walked};
use std::alloc::Global;

/// The first working directory, and a path that leads to it from the root.
#[derive(Drop)]
pub(crate) struct Directory {
    pub(crate) path: Bytes,
    pub(crate) place: Place<MountNumber>,
}

/// Whether the user may search a directory.
fn may_search(tree: &Tree, user: User, host: Host) -> bool
    ensures { result ≡ may_search tree.now user host }
{
    match host {
        Host::Node(ino) => tree.may(user, ino, Right::Search),
        Host::Proc(..) => true,
    }
}

/// The directory to which a path leads from the root, if the user may search it.
fn searchable_at(
    alloc: Global,
    stage: &Stage,
    path: &[u8],
    reach: &mut Reach,
) -> Result<Option<Place<MountNumber>>, NoMemory>
    ensures place { IfOk result (λ place. option_map (numbered number_of) place ≡ searchable_at (table_of stage.now.places) stage.now.tree stage.now.user path.now) }
    ensures reach { OnOk result (reach.new ≡ directory_reach (table_of stage.now.places) stage.now.tree stage.now.user path.now reach.old) }
{
    if !is_walked(path) {
        return Ok(None);
    }
    match directory_at(alloc, &stage.places, &stage.tree, stage.user, path, reach)? {
        Some(place) => {
            if may_search(&stage.tree, stage.user, place.host) {
                Ok(Some(place))
            } else {
                Ok(None)
            }
        }
        None => Ok(None),
    }
}

/// The first working directory: that of a path, if it leads to a directory that the user may search, and else the root.
pub(crate) fn working_directory(
    alloc: Global,
    stage: &Stage,
    path: Bytes,
    reach: &mut Reach,
) -> Result<Directory, NoMemory>
    ensures directory { IfOk result (λ d. directory_told d ≡ working_directory (table_of stage.now.places) stage.now.tree stage.now.user path) }
    ensures reach { OnOk result (reach.new ≡ directory_reach (table_of stage.now.places) stage.now.tree stage.now.user path reach.old) }
{
    match searchable_at(alloc, stage, path.as_slice(), reach)? {
        Some(place) => Ok(Directory { path, place }),
        None => Ok(Directory {
            path: Bytes::copy(alloc, b"/")?,
            place: stage.places.root(),
        }),
    }
}

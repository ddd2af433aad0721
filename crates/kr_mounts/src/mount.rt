//! Mounts as they were settled.
ghost use Rattle.std.specs.Prelude.{◌≡◌, IfOk};

use kr_walk::below::Ino;
use pt_bind::below::pr_base::{Bound, Bytes, NoMemory};
use std::alloc::Global;

/// A mount point: a name in a directory of the mount in which it stands.
#[derive(Drop)]
pub struct MountPoint {
    /// The number of that mount.
    pub mount: usize,
    pub dir: Ino,
    pub name: Bytes,
}

/// A mount as it was settled: its texts, its source with the host directory and name at which that was found,
/// whether the source is a directory, and its mount point, which the root's mount hasn't. A source that is the
/// host's `/` has directory 0 and an empty name.
#[derive(Drop)]
pub struct Mount {
    pub text: Bound,
    pub source: Ino,
    pub source_dir: Ino,
    pub source_name: Bytes,
    pub is_dir: bool,
    pub point: Option<MountPoint>,
}

/// A copy of a binding's texts.
pub(crate) fn copy_bound(alloc: Global, text: &Bound) -> Result<Bound, NoMemory>
    ensures { IfOk result (λ copy. copy ≡ text.now) }
{
    let location = Bytes::copy(alloc, text.location.as_slice())?;
    let source = Bytes::copy(alloc, text.source.as_slice())?;
    let point = Bytes::copy(alloc, text.point.as_slice())?;
    Ok(Bound {
        index: text.index,
        location,
        source,
        point,
    })
}

/// A copy of a mount point.
fn copy_point(alloc: Global, point: &MountPoint) -> Result<MountPoint, NoMemory>
    ensures { IfOk result (λ copy. copy ≡ point.now) }
{
    let name = Bytes::copy(alloc, point.name.as_slice())?;
    Ok(MountPoint {
        mount: point.mount,
        dir: point.dir,
        name,
    })
}

/// A copy of a mount.
pub(crate) fn copy_mount(alloc: Global, mount: &Mount) -> Result<Mount, NoMemory>
    ensures { IfOk result (λ copy. copy ≡ mount.now) }
{
    let text = copy_bound(alloc, &mount.text)?;
    let source_name = Bytes::copy(alloc, mount.source_name.as_slice())?;
    let point = match &mount.point {
        Some(point) => Some(copy_point(alloc, point)?),
        None => None,
    };
    Ok(Mount {
        text,
        source: mount.source,
        source_dir: mount.source_dir,
        source_name,
        is_dir: mount.is_dir,
        point,
    })
}

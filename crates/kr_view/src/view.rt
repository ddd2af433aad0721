//! What a walk asks of the mounts.

use kr_tree::{Host, Ino, Place, ROOT};

/// A mount as it was settled: its source with the host directory and name at which that was found,
/// and the directory and name of its mount point. The root's row has directory 0 and an empty name
/// in place of a mount point, and a source that is the host's `/` has them in place of its own.
#[derive(Clone, Copy)]
pub struct MountRow<'a> {
    pub source: Ino,
    pub source_dir: Ino,
    pub source_name: &'a [u8],
    pub point_dir: Ino,
    pub point_name: &'a [u8],
}

/// A view of the tree: its mounts, which a proof sees as a table of plain data. No call changes what
/// they answer, and a mount's number is its place in the table.
pub trait Places {
    type Mount: Copy;

    ghost use Rattle.std.specs.Prelude.{◌≡◌, ℕ, List, Option, Some, None, nat_eq};
    ghost use Rattle.std.specs.Option.{option_map};
    ghost use Rattle.kr_view.specs.View.{Row, root_place, down, up, covered, source, location, row, shown};
    ghost use Rattle.kr_view.specs.Leads.{numbered};
    ghost use Rattle.kr_view.specs.Rows.{row_told};

    /// The mounts, the root's first.
    ghost mounts: { Self → List Row };

    /// The number of a mount.
    ghost number: { Self.Mount → ℕ };

    /// Where absolute paths begin.
    fn root(&self) -> Place<Self::Mount>
        ensures { numbered number result ≡ root_place (mounts self.now) };

    /// The source of the mount that stands at a name in a directory of a mount; `None` exactly where
    /// none stands there.
    fn down(&self, mount: Self::Mount, dir: Ino, name: &[u8]) -> Option<Place<Self::Mount>>
        ensures { option_map (numbered number) result ≡ down (mounts self.now) (number mount) dir name.now };

    /// The directory of the mount point, where `dir` is the source of `mount` and that isn't the
    /// root's; `None` exactly where it isn't so.
    fn up(&self, mount: Self::Mount, dir: Ino) -> Option<Place<Self::Mount>>
        ensures { option_map (numbered number) result ≡ up (mounts self.now) (number mount) dir };

    /// Whether a mount stands at a name in a directory, in whatever mount that is.
    fn covered(&self, dir: Ino, name: &[u8]) -> bool
        ensures { result ≡ covered (mounts self.now) dir name.now };

    /// The host directory and name at which a mount's source was found; `None` exactly where the
    /// source is a directory.
    fn source(&self, mount: Self::Mount) -> Option<(Ino, &[u8])>
        ensures { option_map (λ e. (e.0, e.1.now)) result ≡ source (mounts self.now) (number mount) };

    /// Whether two mounts are the same.
    fn same(&self, a: Self::Mount, b: Self::Mount) -> bool
        ensures { result ≡ nat_eq (number a) (number b) };

    /// The guest name at which a mount is located.
    fn location(&self, mount: Self::Mount) -> &[u8]
        ensures { result.now ≡ location (mounts self.now) (number mount) };

    /// The mount of a number, as it was settled; `None` exactly where there are no more than `k`.
    fn row(&self, k: u32) -> Option<MountRow<'_>>
        ensures { option_map row_told result ≡ option_map shown (row (mounts self.now) k) };

    /// A mount has a number of its own.
    ghost one_mount: { (a b : Self.Mount) → number a ≡ number b → a ≡ b };
}

/// The one mount of the host's own view.
#[derive(Clone, Copy)]
pub struct HostMount;

/// The host's own view: one mount, whose source is the root of the host.
#[derive(Clone, Copy)]
pub struct Plain;

impl Plain {
    pub fn new() -> Plain {
        Plain
    }
}

impl Places for Plain {
    type Mount = HostMount;

    ghost use Rattle.std.specs.Prelude.{refl};
    ghost use Rattle.kr_view.specs.View.{plain};

    ghost mounts = { λ _. plain };

    ghost number = { λ _. 0 };

    fn root(&self) -> Place<HostMount> {
        Place {
            mount: HostMount,
            host: Host::Node(ROOT),
        }
    }

    fn down(&self, _mount: HostMount, _dir: Ino, _name: &[u8]) -> Option<Place<HostMount>> {
        None
    }

    fn up(&self, _mount: HostMount, _dir: Ino) -> Option<Place<HostMount>> {
        None
    }

    fn covered(&self, _dir: Ino, _name: &[u8]) -> bool {
        false
    }

    fn source(&self, _mount: HostMount) -> Option<(Ino, &[u8])> {
        None
    }

    fn same(&self, _a: HostMount, _b: HostMount) -> bool {
        true
    }

    fn location(&self, _mount: HostMount) -> &[u8] {
        b"/"
    }

    fn row(&self, k: u32) -> Option<MountRow<'_>> {
        if k == 0 {
            Some(MountRow {
                source: ROOT,
                source_dir: 0,
                source_name: b"",
                point_dir: 0,
                point_name: b"",
            })
        } else {
            None
        }
    }

    ghost one_mount = { λ a b h. refl };
}

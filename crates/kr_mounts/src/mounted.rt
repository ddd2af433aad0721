//! The view that enters mounts.
ghost use Rattle.std.specs.Prelude.{◌≡◌, ◌++◌, ◌∷◌, [], List, length, OnOk, IfOk, position};
ghost use Rattle.kr_walk.specs.kr_view.Rows.{row_told};
ghost use Rattle.kr_walk.specs.kr_view.View.{Row, shown, stands_at, is_point};
ghost use Rattle.pt_bind.specs.Binding.{IsWritten};
ghost use Rattle.kr_mounts.specs.Stored.{AreLocated, table_of, row_of_mount};
ghost use Rattle.kr_mounts.specs.Index.{IsIndexOf, IsNameNoted, IsKeyNoted, point_cmp, entry_cmp};

use crate::mount::{Mount, copy_mount};
use crate::settled::Settled;
use kr_walk::below::{Host, Ino, MountRow, Place, Places, ROOT, Tree};
use pt_bind::below::pr_base::{Bytes, NoMemory};
use std::alloc::Global;
use std::collections::BTreeMap;
use std::marker::Model;

/// A mount, by its number: its place in the table, the root's is 0.
#[derive(Clone, Copy)]
pub struct MountNumber {
    number: usize,
}

impl MountNumber {
    /// The number.
    pub(crate) fn number(self) -> usize
        ensures { result ≡ self.number }
    {
        self.number
    }
}

/// Where a mount stands: a directory of a mount, and a name of it, by the number of the first mount that stands
/// at that name, wherever this is.
#[derive(Clone, Copy, PartialEq, Eq, PartialOrd, Ord)]
struct PointKey {
    mount: usize,
    dir: Ino,
    name: usize,
}

/// A directory in whatever mount, and a name of it, by the number of the first mount that stands at that name.
#[derive(Clone, Copy, PartialEq, Eq, PartialOrd, Ord)]
struct EntryKey {
    dir: Ino,
    name: usize,
}

/// A table of mounts, with the places of mount points in ordered maps. A name is kept once, with the number of the
/// first mount that stands at it; points are kept by these numbers.
#[derive(Drop)]
pub struct Mounted {
    mounts: Vec<Mount>,
    names: BTreeMap<Vec<u8>, usize>,
    points: BTreeMap<PointKey, usize>,
    entries: BTreeMap<EntryKey, usize>,
    alloc: Global,
}

impl Model for Mounted {
    ghost use Rattle.std.specs.Prelude.{List};
    ghost use Rattle.kr_mounts.specs.declared.mount.Mount.{Mount};
    ghost use Rattle.kr_mounts.specs.Index.{IsIndex};
    ghost use Rattle.kr_mounts.specs.Stored.{AreLocated};

    ghost Value = { List Mount };

    ghost view = { λ m. m.mounts.items };

    ghost invariant = { λ m. IsIndex m.mounts.items m.names m.points m.entries × AreLocated m.mounts.items };
}

impl Mounted {
    /// The view that enters the mounts of settled bindings, in the tree in which they were settled.
    pub fn build(alloc: Global, settled: &Settled, _tree: &Tree) -> Result<Mounted, NoMemory>
        ensures { IfOk result (λ mounted. mounted ≡ settled.now) }
    {
        let mut mounted = Mounted::empty(alloc);
        for mount in settled.mounts() {
            mounted = mounted.with(copy_mount(alloc, mount)?)?;
        }
        Ok(mounted)
    }

    /// No mounts.
    pub(crate) fn empty(alloc: Global) -> Mounted
        ensures { result ≡ [] }
    {
        Mounted {
            mounts: Vec::new(alloc),
            names: BTreeMap::new(alloc),
            points: BTreeMap::new(alloc),
            entries: BTreeMap::new(alloc),
            alloc,
        }
    }

    /// With one mount more, which takes the next number.
    pub(crate) fn with(self, mount: Mount) -> Result<Mounted, NoMemory>
        requires { IsWritten mount.text.location }
        ensures { IfOk result (λ more. more ≡ self ++ mount ∷ []) }
    {
        let Mounted {
            mut mounts,
            mut names,
            mut points,
            mut entries,
            alloc,
        } = self;
        let number = mounts.len();
        note_mount(alloc, &mut names, &mut points, &mut entries, &mount, number)?;
        mounts.push(mount)?;
        Ok(Mounted {
            mounts,
            names,
            points,
            entries,
            alloc,
        })
    }

    /// The mounts, the root's first.
    pub(crate) fn mounts(&self) -> &[Mount]
        ensures { result.now ≡ self.now }
    {
        self.mounts.as_slice()
    }

    /// The mounts as the vector that holds them.
    pub(crate) fn into_mounts(self) -> Vec<Mount>
        ensures all { result.items ≡ self }
        ensures located { AreLocated result.items }
    {
        self.mounts
    }

    /// The mount that stands at a name in a directory of a mount.
    fn standing_at(&self, mount: usize, dir: Ino, name: &[u8]) -> Option<usize>
        ensures { result ≡ position (stands_at (is_point mount dir name.now)) (table_of self.now) }
    {
        let name = *self.names.get(name)?;
        self.points.get(&PointKey { mount, dir, name }).copied()
    }
}

impl Places for Mounted {
    type Mount = MountNumber;

    ghost use Rattle.std.proofs.Common.{ap};
    ghost use Rattle.kr_mounts.specs.Stored.{table_of};

    ghost mounts = { λ m. table_of m };

    ghost number = { λ m. m.number };

    fn root(&self) -> Place<MountNumber> {
        let source = match self.mounts.first() {
            Some(mount) => mount.source,
            None => ROOT,
        };
        Place {
            mount: MountNumber { number: 0 },
            host: Host::Node(source),
        }
    }

    fn down(&self, mount: MountNumber, dir: Ino, name: &[u8]) -> Option<Place<MountNumber>> {
        let number = self.standing_at(mount.number, dir, name)?;
        match self.mounts.get(number) {
            Some(entered) => Some(Place {
                mount: MountNumber { number },
                host: Host::Node(entered.source),
            }),
            None => None,
        }
    }

    fn up(&self, mount: MountNumber, dir: Ino) -> Option<Place<MountNumber>> {
        let left = self.mounts.get(mount.number)?;
        if left.source != dir {
            return None;
        }
        match &left.point {
            Some(point) => Some(Place {
                mount: MountNumber {
                    number: point.mount,
                },
                host: Host::Node(point.dir),
            }),
            None => None,
        }
    }

    fn covered(&self, dir: Ino, name: &[u8]) -> bool {
        match self.names.get(name) {
            Some(name) => self.entries.contains_key(&EntryKey { dir, name: *name }),
            None => false,
        }
    }

    fn source(&self, mount: MountNumber) -> Option<(Ino, &[u8])> {
        let settled = self.mounts.get(mount.number)?;
        if settled.is_dir {
            None
        } else {
            Some((settled.source_dir, settled.source_name.as_slice()))
        }
    }

    fn same(&self, a: MountNumber, b: MountNumber) -> bool {
        a.number == b.number
    }

    fn location(&self, mount: MountNumber) -> &[u8] {
        match self.mounts.get(mount.number) {
            Some(settled) => settled.text.location.as_slice(),
            None => b"",
        }
    }

    fn row(&self, k: u32) -> Option<MountRow<'_>> {
        match self.mounts.get(k as usize) {
            Some(mount) => Some(shown(mount)),
            None => None,
        }
    }

    ghost one_mount = { λ a b h. ap (λ n. record { number = n }) h };
}

/// A mount as a caller is told it.
fn shown(mount: &Mount) -> MountRow<'_>
    ensures { row_told result ≡ shown (row_of_mount mount.now) }
{
    let (point_dir, point_name): (Ino, &[u8]) = match &mount.point {
        Some(point) => (point.dir, point.name.as_slice()),
        None => (0, b""),
    };
    MountRow {
        source: mount.source,
        source_dir: mount.source_dir,
        source_name: mount.source_name.as_slice(),
        point_dir,
        point_name,
    }
}

/// Puts the point of the mount that takes a number, if it has one, into the maps.
fn note_mount(
    alloc: Global,
    names: &mut BTreeMap<Vec<u8>, usize>,
    points: &mut BTreeMap<PointKey, usize>,
    entries: &mut BTreeMap<EntryKey, usize>,
    mount: &Mount,
    number: usize,
) -> Result<(), NoMemory>
    ensures { OnOk result ((table : List Row) → number ≡ length table → IsIndexOf table names.old points.old entries.old →
        IsIndexOf (table ++ row_of_mount mount.now ∷ []) names.new points.new entries.new) }
{
    let Some(point) = &mount.point else {
        return Ok(());
    };
    let name = note_name(alloc, names, point.name.as_slice(), number)?;
    let key = PointKey {
        mount: point.mount,
        dir: point.dir,
        name,
    };
    note_point(points, key, number)?;
    let key = EntryKey {
        dir: point.dir,
        name,
    };
    note_entry(entries, key, number)?;
    Ok(())
}

/// The number of a name: that which it has, or a new one.
fn note_name(
    alloc: Global,
    names: &mut BTreeMap<Vec<u8>, usize>,
    name: &[u8],
    number: usize,
) -> Result<usize, NoMemory>
    ensures { IfOk result (λ n. IsNameNoted names.old name.now number names.new n) }
{
    if let Some(old) = names.get(name) {
        return Ok(*old);
    }
    let key = Bytes::copy(alloc, name)?.into_vec();
    names.insert(key, number)?;
    Ok(number)
}

/// Gives a point the number of its mount, if it has none yet.
fn note_point(
    points: &mut BTreeMap<PointKey, usize>,
    key: PointKey,
    number: usize,
) -> Result<(), NoMemory>
    ensures { OnOk result (IsKeyNoted point_cmp points.old key number points.new) }
{
    if !points.contains_key(&key) {
        points.insert(key, number)?;
    }
    Ok(())
}

/// Gives a directory and name the number of the first mount that stands there, if it has none yet.
fn note_entry(
    entries: &mut BTreeMap<EntryKey, usize>,
    key: EntryKey,
    number: usize,
) -> Result<(), NoMemory>
    ensures { OnOk result (IsKeyNoted entry_cmp entries.old key number entries.new) }
{
    if !entries.contains_key(&key) {
        entries.insert(key, number)?;
    }
    Ok(())
}

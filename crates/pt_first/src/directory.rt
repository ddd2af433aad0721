//! The first working directory.
ghost use Rattle.std.specs.Prelude.{◌≡◌, IfOk, OnOk};
ghost use Rattle.kr_first.specs.pt_bind.Binding.{IsWritten};
ghost use Rattle.pt_script.specs.pt_canon.Canon.{IsAnswer, IsWalkNoted, texts_by};
ghost use Rattle.pt_script.specs.Programs.{canon_from, canon_unmet};
ghost use Rattle.pt_first.specs.GuestStart.{directory_at, directory_unmet, working_directory, working_unmet};
ghost use Rattle.pt_script.specs.pt_canon.Leaving.{OnlyPeeks};
ghost use Rattle.pt_script.specs.pt_canon.Remembering.{Agrees, WalksOn};

use pr_words::below::{Bytes, NoMemory, Peeks, WalkMode, is_walked};
use pt_script::below::{Canon, Tags, WalkErr, Walker};
use std::alloc::Global;

/// The root's guest text.
pub(crate) const ROOT: &[u8] = b"/";

/// Where a path leads from a guest text, a last link followed.
pub(crate) fn canon_from<K: Peeks>(
    kernel: &mut K,
    walker: &mut Walker,
    tags: &Tags,
    path: &[u8],
    base: &[u8],
) -> Result<Canon, WalkErr>
    requires base { IsWritten base.now }
    requires agrees { Agrees walker.old (K.peeked kernel.old) }
    ensures answer { IsAnswer (canon_from (texts_by walker.old.table (K.peeked kernel.old) tags.now) path.now base.now) result }
    ensures written { IfOk result (λ canon. IsWritten canon.guest) }
    ensures walker { WalksOn (K.peeked kernel.old) walker.old walker.new }
    ensures noted { IsWalkNoted (canon_unmet (texts_by walker.old.table (K.peeked kernel.old) tags.now) path.now base.now (K.unmet kernel.old)) (K.unmet kernel.new) result }
    ensures kernel { OnlyPeeks K.peeked K.kept kernel.old kernel.new }
{
    walker.canon(kernel, tags, base, path, WalkMode::Look)
}

/// The directory to which a path leads from the root, if the user may search it: who may finds the directory in itself.
fn directory_at<K: Peeks>(
    kernel: &mut K,
    walker: &mut Walker,
    tags: &Tags,
    path: &[u8],
) -> Result<Canon, WalkErr>
    requires agrees { Agrees walker.old (K.peeked kernel.old) }
    ensures answer { IsAnswer (directory_at (texts_by walker.old.table (K.peeked kernel.old) tags.now) path.now) result }
    ensures written { IfOk result (λ canon. IsWritten canon.guest) }
    ensures walker { WalksOn (K.peeked kernel.old) walker.old walker.new }
    ensures noted { IsWalkNoted (directory_unmet (texts_by walker.old.table (K.peeked kernel.old) tags.now) path.now (K.unmet kernel.old)) (K.unmet kernel.new) result }
    ensures kernel { OnlyPeeks K.peeked K.kept kernel.old kernel.new }
{
    let found = canon_from(kernel, walker, tags, path, ROOT)?;
    canon_from(kernel, walker, tags, b".", found.guest.as_slice())
}

/// The guest text of the first working directory: that of a path, if it leads to a directory that the user may search, and else
/// the root.
pub(crate) fn working_directory<K: Peeks>(
    alloc: Global,
    kernel: &mut K,
    walker: &mut Walker,
    tags: &Tags,
    path: &[u8],
) -> Result<Bytes, NoMemory>
    requires agrees { Agrees walker.old (K.peeked kernel.old) }
    ensures text { IfOk result (λ text. text ≡ working_directory (texts_by walker.old.table (K.peeked kernel.old) tags.now) path.now) }
    ensures written { IfOk result IsWritten }
    ensures walker { WalksOn (K.peeked kernel.old) walker.old walker.new }
    ensures noted { OnOk result (K.unmet kernel.new ≡ working_unmet (texts_by walker.old.table (K.peeked kernel.old) tags.now) path.now (K.unmet kernel.old)) }
    ensures kernel { OnlyPeeks K.peeked K.kept kernel.old kernel.new }
{
    if !is_walked(path) {
        return Bytes::copy(alloc, ROOT);
    }
    match directory_at(kernel, walker, tags, path) {
        Ok(found) => Ok(found.guest),
        Err(WalkErr::Err(_)) => Bytes::copy(alloc, ROOT),
        Err(WalkErr::NoMemory) => Err(NoMemory),
    }
}

//! Peeks at host texts, as what they tell a walk.
ghost use Rattle.std.specs.Prelude.{◌≡◌, ◌&&◌, IfOk, OnOk, Ok};
ghost use Rattle.pt_bind.specs.pr_base.Peeks.{IsNoted, IsPeeked};
ghost use Rattle.pt_bind.specs.Binding.{IsWritten, names_of};
ghost use Rattle.pt_canon.specs.Canon.{IsWalkNoted};
ghost use Rattle.pt_canon.specs.ProcessLinks.{is_dir_kind};
ghost use Rattle.pt_canon.specs.TextWalk.{itself_in};
ghost use Rattle.pt_canon.specs.Looks.{IsDirectoryTold, IsItselfTold};
ghost use Rattle.pt_canon.specs.Leaving.{OnlyPeeks};

use crate::canon::WalkErr;
use crate::guest::below_root;
use pt_bind::below::pr_base::{Bytes, Errno, NoMemory, PeekFault, PeekKind, Peeks};
use std::alloc::Global;

/// What stands at a host text.
pub(crate) fn kind_at<K: Peeks>(kernel: &mut K, host: &[u8]) -> Result<PeekKind, PeekFault>
    requires { IsWritten host.now }
    ensures answer { IsPeeked ((K.peeked kernel.old).kind host.now) result }
    ensures noted { IsNoted (K.unmet kernel.old && (K.peeked kernel.old).steady host.now) (K.unmet kernel.new) result }
    ensures kernel { OnlyPeeks K.peeked K.kept kernel.old kernel.new }
{
    kernel.kind(host)
}

/// The text of the link at a host text.
pub(crate) fn link_text_at<K: Peeks>(kernel: &mut K, host: &[u8]) -> Result<Bytes, PeekFault>
    requires { IsWritten host.now }
    ensures answer { IsPeeked ((K.peeked kernel.old).link_text host.now) result }
    ensures noted { IsNoted (K.unmet kernel.old && (K.peeked kernel.old).steady host.now) (K.unmet kernel.new) result }
    ensures kernel { OnlyPeeks K.peeked K.kept kernel.old kernel.new }
{
    kernel.link_text(host)
}

/// Whether a directory stands at a host text.
pub(crate) fn is_directory<K: Peeks>(kernel: &mut K, host: &[u8]) -> Result<bool, NoMemory>
    requires { IsWritten host.now }
    ensures answer { IfOk result (λ is. is ≡ is_dir_kind ((K.peeked kernel.old).kind host.now)) }
    ensures noted { OnOk result (K.unmet kernel.new ≡ (K.unmet kernel.old && (K.peeked kernel.old).steady host.now)) }
    ensures kernel { OnlyPeeks K.peeked K.kept kernel.old kernel.new }
{
    match kind_at(kernel, host) {
        Ok(kind) => Ok(kind == PeekKind::Dir),
        Err(PeekFault::Err(_)) => Ok(false),
        Err(PeekFault::NoMemory) => Err(NoMemory),
    }
}

/// Finds that a directory stands at a host text, or why nothing is looked up there. A last link isn't followed.
pub(crate) fn find_directory<K: Peeks>(kernel: &mut K, host: &[u8]) -> Result<(), WalkErr>
    requires { IsWritten host.now }
    ensures answer { IsDirectoryTold ((K.peeked kernel.old).kind host.now) result }
    ensures noted { IsWalkNoted (K.unmet kernel.old && (K.peeked kernel.old).steady host.now) (K.unmet kernel.new) result }
    ensures kernel { OnlyPeeks K.peeked K.kept kernel.old kernel.new }
{
    match kind_at(kernel, host)? {
        PeekKind::Dir => Ok(()),
        PeekKind::File | PeekKind::Link | PeekKind::Jump => Err(WalkErr::Err(Errno::ENOTDIR)),
    }
}

/// Finds that the directory at a host text may be searched, or why not: who may search it finds the directory itself
/// in it.
pub(crate) fn find_itself<K: Peeks>(
    alloc: Global,
    kernel: &mut K,
    host: &[u8],
) -> Result<(), WalkErr>
    requires { IsWritten host.now }
    ensures answer { IsItselfTold ((K.peeked kernel.old).kind (itself_in (names_of host.now))) result }
    ensures noted { IsWalkNoted (K.unmet kernel.old && (K.peeked kernel.old).steady (itself_in (names_of host.now))) (K.unmet kernel.new) result }
    ensures kernel { OnlyPeeks K.peeked K.kept kernel.old kernel.new }
{
    let itself = itself_in(alloc, host)?;
    let _found = kernel.kind(itself.as_slice())?;
    Ok(())
}

/// Whether the walk to a host text is steady.
pub(crate) fn is_steady<K: Peeks>(kernel: &mut K, host: &[u8]) -> Result<bool, NoMemory>
    requires { IsWritten host.now }
    ensures answer { IfOk result (λ steady. steady ≡ (K.peeked kernel.old).steady host.now) }
    ensures unmet { K.unmet kernel.new ≡ K.unmet kernel.old }
    ensures kernel { OnlyPeeks K.peeked K.kept kernel.old kernel.new }
{
    kernel.steady(host)
}

/// Whether the walk to the directory at a host text, looked up in itself, is steady.
pub(crate) fn is_itself_steady<K: Peeks>(
    alloc: Global,
    kernel: &mut K,
    host: &[u8],
) -> Result<bool, NoMemory>
    requires { IsWritten host.now }
    ensures answer { IfOk result (λ steady. steady ≡ (K.peeked kernel.old).steady (itself_in (names_of host.now))) }
    ensures unmet { K.unmet kernel.new ≡ K.unmet kernel.old }
    ensures kernel { OnlyPeeks K.peeked K.kept kernel.old kernel.new }
{
    let itself = itself_in(alloc, host)?;
    kernel.steady(itself.as_slice())
}

/// The path of a directory itself, looked up in it, by the directory's host text.
fn itself_in(alloc: Global, host: &[u8]) -> Result<Bytes, NoMemory>
    requires { IsWritten host.now }
    ensures { IfOk result (λ path. path ≡ itself_in (names_of host.now)) }
{
    let mut path = Bytes::copy(alloc, below_root(host))?;
    path.append(b"/.")?;
    Ok(path)
}

//! Flags of openat(2).
ghost use Rattle.std.specs.Prelude.{◌≡◌, ◌||◌, ◌&&◌};
ghost use Rattle.kr_seen.specs.kr_calls.Arguments.{has};
ghost use Rattle.kr_seen.specs.kr_model.DescriptorRows.{o_append, o_cloexec};
ghost use Rattle.kr_seen.specs.kr_model.FileRows.{creates, excludes, truncates, wants_directory, wants_read, wants_write};

use bitflags::Flags;
use kr_seen::below::OpenFlags;
use kr_seen::creates;

/// O_EXCL.
pub(crate) fn excludes(flags: u32) -> bool
    ensures { result ≡ excludes flags }
{
    flags & OpenFlags::EXCL.bits() == OpenFlags::EXCL.bits()
}

/// O_TRUNC.
pub fn truncates(flags: u32) -> bool
    ensures { result ≡ truncates flags }
{
    flags & OpenFlags::TRUNC.bits() == OpenFlags::TRUNC.bits()
}

/// O_DIRECTORY.
pub(crate) fn wants_directory(flags: u32) -> bool
    ensures { result ≡ wants_directory flags }
{
    flags & OpenFlags::DIRECTORY.bits() == OpenFlags::DIRECTORY.bits()
}

/// O_APPEND.
pub(crate) fn appends(flags: u32) -> bool
    ensures { result ≡ has flags o_append }
{
    flags & OpenFlags::APPEND.bits() == OpenFlags::APPEND.bits()
}

/// O_CLOEXEC.
pub(crate) fn closes_on_exec(flags: u32) -> bool
    ensures { result ≡ has flags o_cloexec }
{
    flags & OpenFlags::CLOEXEC.bits() == OpenFlags::CLOEXEC.bits()
}

/// Whether the access mode is to read or for both.
pub(crate) fn wants_read(flags: u32) -> bool
    ensures { result ≡ wants_read flags }
{
    flags % 4 == 0 || flags % 4 == 2
}

/// Whether the access mode is to write or for both.
pub(crate) fn wants_write(flags: u32) -> bool
    ensures { result ≡ wants_write flags }
{
    flags % 4 == 1 || flags % 4 == 2
}

/// Whether an opening writes, makes or cuts what it opens.
pub(crate) fn changes(flags: u32) -> bool
    ensures { result ≡ (wants_write flags || creates flags || truncates flags) }
{
    wants_write(flags) || creates(flags) || truncates(flags)
}

/// Whether an opening is of what isn't there: O_CREAT and O_EXCL.
pub(crate) fn makes_anew(flags: u32) -> bool
    ensures { result ≡ (creates flags && excludes flags) }
{
    creates(flags) && excludes(flags)
}

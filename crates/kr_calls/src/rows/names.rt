//! Calls on names of files.
ghost use Rattle.std.specs.Prelude.{◌≡◌};
ghost use Rattle.kr_calls.specs.Arguments.{has_other};
ghost use Rattle.kr_calls.specs.Decodes.{Decodes, WantsForTexts};
ghost use Rattle.kr_calls.specs.Decoding.{decoded_mkdirat, mkdirat_with, decoded_unlinkat, unlinkat_with, decoded_symlinkat, symlinkat_with, link_flags, decoded_linkat, linkat_with, remove_flags, decoded_renameat2, renameat2_with, decoded_chdir, decoded_chroot, decoded_fchmodat, fchmodat_with, decoded_fchownat, fchownat_with, decoded_execve, execve_with};

use crate::arguments::{allows_empty_path, has_other, has_other_stat_flag, int, long, word};
use crate::fault::CallFault;
use crate::request::Request;
use crate::rows::texts::{path, two_texts};
use bitflags::Flags;
use rv_mem::below::pr_base::{AtFlags, Bytes, Errno};
use rv_mem::{Regs, Space};

/// mkdirat(2).
pub fn mkdirat<const M: u8>(regs: &Regs, mem: &mut Space<M>) -> Result<Request, CallFault>
    ensures decoded { Decodes result (decoded_mkdirat regs.now) mem.old mem.new }
    ensures wanting { WantsForTexts result (decoded_mkdirat regs.now) }
    ensures pages { mem.new.pages ≡ mem.old.pages }
{
    match path(mem, long(regs, 1), false) {
        Ok(path) => Ok(mkdirat_with(regs, path)),
        Err(fault) => Err(fault),
    }
}

/// Its request, with the path that was read.
fn mkdirat_with(regs: &Regs, path: Bytes) -> Request
    ensures { result ≡ mkdirat_with regs.now path }
{
    Request::Mkdirat {
        dirfd: int(regs, 0),
        path,
        mode: word(regs, 2),
    }
}

/// unlinkat(2): EINVAL for a flag other than AT_REMOVEDIR.
pub fn unlinkat<const M: u8>(regs: &Regs, mem: &mut Space<M>) -> Result<Request, CallFault>
    ensures decoded { Decodes result (decoded_unlinkat regs.now) mem.old mem.new }
    ensures wanting { WantsForTexts result (decoded_unlinkat regs.now) }
    ensures pages { mem.new.pages ≡ mem.old.pages }
{
    if has_other_remove_flag(word(regs, 2)) {
        return Err(CallFault::Err(Errno::EINVAL));
    }
    match path(mem, long(regs, 1), false) {
        Ok(path) => Ok(unlinkat_with(regs, path)),
        Err(fault) => Err(fault),
    }
}

/// Its request, with the path that was read.
fn unlinkat_with(regs: &Regs, path: Bytes) -> Request
    ensures { result ≡ unlinkat_with regs.now path }
{
    Request::Unlinkat {
        dirfd: int(regs, 0),
        path,
        flags: word(regs, 2),
    }
}

/// chdir(2).
pub fn chdir<const M: u8>(regs: &Regs, mem: &mut Space<M>) -> Result<Request, CallFault>
    ensures decoded { Decodes result (decoded_chdir regs.now) mem.old mem.new }
    ensures wanting { WantsForTexts result (decoded_chdir regs.now) }
    ensures pages { mem.new.pages ≡ mem.old.pages }
{
    match path(mem, long(regs, 0), false) {
        Ok(path) => Ok(Request::Chdir { path }),
        Err(fault) => Err(fault),
    }
}

/// chroot(2).
pub fn chroot<const M: u8>(regs: &Regs, mem: &mut Space<M>) -> Result<Request, CallFault>
    ensures decoded { Decodes result (decoded_chroot regs.now) mem.old mem.new }
    ensures wanting { WantsForTexts result (decoded_chroot regs.now) }
    ensures pages { mem.new.pages ≡ mem.old.pages }
{
    match path(mem, long(regs, 0), false) {
        Ok(path) => Ok(Request::Chroot { path }),
        Err(fault) => Err(fault),
    }
}

/// fchmodat(2).
pub fn fchmodat<const M: u8>(regs: &Regs, mem: &mut Space<M>) -> Result<Request, CallFault>
    ensures decoded { Decodes result (decoded_fchmodat regs.now) mem.old mem.new }
    ensures wanting { WantsForTexts result (decoded_fchmodat regs.now) }
    ensures pages { mem.new.pages ≡ mem.old.pages }
{
    match path(mem, long(regs, 1), false) {
        Ok(path) => Ok(fchmodat_with(regs, path)),
        Err(fault) => Err(fault),
    }
}

/// Its request, with the path that was read.
fn fchmodat_with(regs: &Regs, path: Bytes) -> Request
    ensures { result ≡ fchmodat_with regs.now path }
{
    Request::Fchmodat {
        dirfd: int(regs, 0),
        path,
        mode: word(regs, 2),
    }
}

/// execve(2). Its lists are read when it is carried out.
pub fn execve<const M: u8>(regs: &Regs, mem: &mut Space<M>) -> Result<Request, CallFault>
    ensures decoded { Decodes result (decoded_execve regs.now) mem.old mem.new }
    ensures wanting { WantsForTexts result (decoded_execve regs.now) }
    ensures pages { mem.new.pages ≡ mem.old.pages }
{
    // It has no flag by which an empty path could mean a descriptor.
    let may_be_empty = false;
    match path(mem, long(regs, 0), may_be_empty) {
        Ok(path) => Ok(execve_with(regs, path)),
        Err(fault) => Err(fault),
    }
}

/// Its request, with the path that was read.
fn execve_with(regs: &Regs, path: Bytes) -> Request
    ensures { result ≡ execve_with regs.now path }
{
    Request::Execve {
        path,
        args: long(regs, 1),
        env: long(regs, 2),
    }
}

/// fchownat(2): EINVAL for an unknown flag. With AT_EMPTY_PATH the path may be empty.
pub fn fchownat<const M: u8>(regs: &Regs, mem: &mut Space<M>) -> Result<Request, CallFault>
    ensures decoded { Decodes result (decoded_fchownat regs.now) mem.old mem.new }
    ensures wanting { WantsForTexts result (decoded_fchownat regs.now) }
    ensures pages { mem.new.pages ≡ mem.old.pages }
{
    let flags = word(regs, 4);
    if has_other_stat_flag(flags) {
        return Err(CallFault::Err(Errno::EINVAL));
    }
    let may_be_empty = allows_empty_path(flags);
    match path(mem, long(regs, 1), may_be_empty) {
        Ok(path) => Ok(fchownat_with(regs, path)),
        Err(fault) => Err(fault),
    }
}

/// Its request, with the path that was read.
fn fchownat_with(regs: &Regs, path: Bytes) -> Request
    ensures { result ≡ fchownat_with regs.now path }
{
    Request::Fchownat {
        dirfd: int(regs, 0),
        path,
        uid: word(regs, 2),
        gid: word(regs, 3),
        flags: word(regs, 4),
    }
}

/// symlinkat(2). The text of the link is read first.
pub fn symlinkat<const M: u8>(regs: &Regs, mem: &mut Space<M>) -> Result<Request, CallFault>
    ensures decoded { Decodes result (decoded_symlinkat regs.now) mem.old mem.new }
    ensures wanting { WantsForTexts result (decoded_symlinkat regs.now) }
    ensures pages { mem.new.pages ≡ mem.old.pages }
{
    match two_texts(mem, long(regs, 0), long(regs, 2)) {
        Ok((text, path)) => Ok(symlinkat_with(regs, text, path)),
        Err(fault) => Err(fault),
    }
}

/// Its request, with the texts that were read.
fn symlinkat_with(regs: &Regs, text: Bytes, path: Bytes) -> Request
    ensures { result ≡ symlinkat_with regs.now text path }
{
    Request::Symlinkat {
        text,
        dirfd: int(regs, 1),
        path,
    }
}

/// linkat(2): EINVAL for a flag other than AT_SYMLINK_FOLLOW.
pub fn linkat<const M: u8>(regs: &Regs, mem: &mut Space<M>) -> Result<Request, CallFault>
    ensures decoded { Decodes result (decoded_linkat regs.now) mem.old mem.new }
    ensures wanting { WantsForTexts result (decoded_linkat regs.now) }
    ensures pages { mem.new.pages ≡ mem.old.pages }
{
    if has_other_link_flag(word(regs, 4)) {
        return Err(CallFault::Err(Errno::EINVAL));
    }
    match two_texts(mem, long(regs, 1), long(regs, 3)) {
        Ok((old, new)) => Ok(linkat_with(regs, old, new)),
        Err(fault) => Err(fault),
    }
}

/// Its request, with the texts that were read.
fn linkat_with(regs: &Regs, old: Bytes, new: Bytes) -> Request
    ensures { result ≡ linkat_with regs.now old new }
{
    Request::Linkat {
        olddir: int(regs, 0),
        old,
        newdir: int(regs, 2),
        new,
        flags: word(regs, 4),
    }
}

/// renameat2(2): EINVAL for any flag.
pub fn renameat2<const M: u8>(regs: &Regs, mem: &mut Space<M>) -> Result<Request, CallFault>
    ensures decoded { Decodes result (decoded_renameat2 regs.now) mem.old mem.new }
    ensures wanting { WantsForTexts result (decoded_renameat2 regs.now) }
    ensures pages { mem.new.pages ≡ mem.old.pages }
{
    if has_rename_flag(word(regs, 4)) {
        return Err(CallFault::Err(Errno::EINVAL));
    }
    match two_texts(mem, long(regs, 1), long(regs, 3)) {
        Ok((old, new)) => Ok(renameat2_with(regs, old, new)),
        Err(fault) => Err(fault),
    }
}

/// Its request, with the texts that were read.
fn renameat2_with(regs: &Regs, old: Bytes, new: Bytes) -> Request
    ensures { result ≡ renameat2_with regs.now old new }
{
    Request::Renameat2 {
        olddir: int(regs, 0),
        old,
        newdir: int(regs, 2),
        new,
    }
}

/// Whether flags have a bit that unlinkat(2) doesn't know.
fn has_other_remove_flag(flags: u32) -> bool
    ensures { result ≡ has_other flags remove_flags }
{
    has_other(flags, AtFlags::REMOVEDIR.bits())
}

/// Whether flags have a bit that linkat(2) doesn't know.
fn has_other_link_flag(flags: u32) -> bool
    ensures { result ≡ has_other flags link_flags }
{
    has_other(flags, AtFlags::SYMLINK_FOLLOW.bits())
}

/// Whether there is a flag; renameat2(2) knows none here.
fn has_rename_flag(flags: u32) -> bool
    ensures { result ≡ has_other flags 0 }
{
    has_other(flags, 0)
}

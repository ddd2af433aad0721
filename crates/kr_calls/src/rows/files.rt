//! Calls on files and directories.
ghost use Rattle.std.specs.Prelude.{◌≡◌, nat_lt, Ok};
ghost use Rattle.rv_mem.specs.Actions.{Done};
ghost use Rattle.kr_calls.specs.Arguments.{has};
ghost use Rattle.kr_calls.specs.Decodes.{Decodes, WantsForTexts};
ghost use Rattle.kr_calls.specs.Decoding.{decoded_ftruncate, decoded_faccessat, faccessat_with, decoded_openat, openat_with, decoded_getdents64, decoded_lseek, decoded_read, decoded_write, decoded_readv, decoded_writev, decoded_readlinkat, readlinkat_with, decoded_newfstatat, newfstatat_with, decoded_fstat, has_bad_open_flags, has_no_size};

use crate::arguments::{allows_empty_path, has, has_other_stat_flag, int, long, signed_long, word};
use crate::fault::CallFault;
use crate::request::Request;
use crate::rows::texts::path;
use bitflags::Flags;
use rv_mem::below::pr_base::{Bytes, Errno, OpenFlags};
use rv_mem::{Regs, Space};

/// The bits of the access mode of openat(2); both of them are no mode.
const ACCESS_MODE: u32 = 0x3;

/// The rights that faccessat(2) may ask for: R_OK 4, W_OK 2 and X_OK 1.
const ACCESS_RIGHTS: u32 = 0x7;

/// ftruncate(2): EINVAL for a negative length.
pub fn ftruncate(regs: &Regs) -> Result<Request, Errno>
    ensures { decoded_ftruncate regs.now ≡ Done result }
{
    let len = long(regs, 1);
    if len > i64::MAX as u64 {
        return Err(Errno::EINVAL);
    }
    Ok(Request::Ftruncate {
        fd: int(regs, 0),
        len,
    })
}

/// faccessat(2): EINVAL for an unknown right.
pub fn faccessat<const M: u8>(regs: &Regs, mem: &mut Space<M>) -> Result<Request, CallFault>
    ensures decoded { Decodes result (decoded_faccessat regs.now) mem.old mem.new }
    ensures wanting { WantsForTexts result (decoded_faccessat regs.now) }
    ensures pages { mem.new.pages ≡ mem.old.pages }
{
    if has_other_right(word(regs, 2)) {
        return Err(CallFault::Err(Errno::EINVAL));
    }
    match path(mem, long(regs, 1), false) {
        Ok(path) => Ok(faccessat_with(regs, path)),
        Err(fault) => Err(fault),
    }
}

/// Its request, with the path that was read.
fn faccessat_with(regs: &Regs, path: Bytes) -> Request
    ensures { result ≡ faccessat_with regs.now path }
{
    Request::Faccessat {
        dirfd: int(regs, 0),
        path,
        mode: word(regs, 2),
    }
}

/// Whether a right is asked that isn't one.
fn has_other_right(mode: u32) -> bool
    ensures { result ≡ nat_lt 7 mode }
{
    mode > ACCESS_RIGHTS
}

/// openat(2): EINVAL for flags that make no sense together; unknown ones are kept.
pub fn openat<const M: u8>(regs: &Regs, mem: &mut Space<M>) -> Result<Request, CallFault>
    ensures decoded { Decodes result (decoded_openat regs.now) mem.old mem.new }
    ensures wanting { WantsForTexts result (decoded_openat regs.now) }
    ensures pages { mem.new.pages ≡ mem.old.pages }
{
    if has_bad_open_flags(word(regs, 2)) {
        return Err(CallFault::Err(Errno::EINVAL));
    }
    match path(mem, long(regs, 1), false) {
        Ok(path) => Ok(openat_with(regs, path)),
        Err(fault) => Err(fault),
    }
}

/// Its request, with the path that was read.
fn openat_with(regs: &Regs, path: Bytes) -> Request
    ensures { result ≡ openat_with regs.now path }
{
    Request::Openat {
        dirfd: int(regs, 0),
        path,
        flags: word(regs, 2),
        mode: word(regs, 3),
    }
}

/// The access mode 3, or a file to be made that has to be a directory.
fn has_bad_open_flags(flags: u32) -> bool
    ensures { result ≡ has_bad_open_flags flags }
{
    has(flags, ACCESS_MODE) || has(flags, OpenFlags::CREAT.bits() | OpenFlags::DIRECTORY.bits())
}

/// getdents64(2).
pub fn getdents64(regs: &Regs) -> Request
    ensures { decoded_getdents64 regs.now ≡ Done (Ok result) }
{
    Request::Getdents64 {
        fd: int(regs, 0),
        buf: long(regs, 1),
        n: int(regs, 2),
    }
}

/// lseek(2).
pub fn lseek(regs: &Regs) -> Request
    ensures { decoded_lseek regs.now ≡ Done (Ok result) }
{
    Request::Lseek {
        fd: int(regs, 0),
        off: signed_long(regs, 1),
        whence: int(regs, 2),
    }
}

/// read(2).
pub fn read(regs: &Regs) -> Request
    ensures { decoded_read regs.now ≡ Done (Ok result) }
{
    Request::Read {
        fd: int(regs, 0),
        buf: long(regs, 1),
        n: long(regs, 2),
    }
}

/// write(2).
pub fn write(regs: &Regs) -> Request
    ensures { decoded_write regs.now ≡ Done (Ok result) }
{
    Request::Write {
        fd: int(regs, 0),
        buf: long(regs, 1),
        n: long(regs, 2),
    }
}

/// readv(2).
pub fn readv(regs: &Regs) -> Request
    ensures { decoded_readv regs.now ≡ Done (Ok result) }
{
    Request::Readv {
        fd: int(regs, 0),
        list: long(regs, 1),
        count: long(regs, 2),
    }
}

/// writev(2).
pub fn writev(regs: &Regs) -> Request
    ensures { decoded_writev regs.now ≡ Done (Ok result) }
{
    Request::Writev {
        fd: int(regs, 0),
        list: long(regs, 1),
        count: long(regs, 2),
    }
}

/// readlinkat(2): EINVAL for a size that isn't above 0.
pub fn readlinkat<const M: u8>(regs: &Regs, mem: &mut Space<M>) -> Result<Request, CallFault>
    ensures decoded { Decodes result (decoded_readlinkat regs.now) mem.old mem.new }
    ensures wanting { WantsForTexts result (decoded_readlinkat regs.now) }
    ensures pages { mem.new.pages ≡ mem.old.pages }
{
    if has_no_size(word(regs, 3)) {
        return Err(CallFault::Err(Errno::EINVAL));
    }
    match path(mem, long(regs, 1), false) {
        Ok(path) => Ok(readlinkat_with(regs, path)),
        Err(fault) => Err(fault),
    }
}

/// Its request, with the path that was read.
fn readlinkat_with(regs: &Regs, path: Bytes) -> Request
    ensures { result ≡ readlinkat_with regs.now path }
{
    Request::Readlinkat {
        dirfd: int(regs, 0),
        path,
        buf: long(regs, 2),
        size: int(regs, 3),
    }
}

/// Whether a size of 32 bits with a sign isn't above 0.
fn has_no_size(size: u32) -> bool
    ensures { result ≡ has_no_size size }
{
    size == 0 || size > i32::MAX as u32
}

/// newfstatat(2): EINVAL for an unknown flag. With AT_EMPTY_PATH the path may be empty.
pub fn newfstatat<const M: u8>(regs: &Regs, mem: &mut Space<M>) -> Result<Request, CallFault>
    ensures decoded { Decodes result (decoded_newfstatat regs.now) mem.old mem.new }
    ensures wanting { WantsForTexts result (decoded_newfstatat regs.now) }
    ensures pages { mem.new.pages ≡ mem.old.pages }
{
    let flags = word(regs, 3);
    if has_other_stat_flag(flags) {
        return Err(CallFault::Err(Errno::EINVAL));
    }
    let may_be_empty = allows_empty_path(flags);
    match path(mem, long(regs, 1), may_be_empty) {
        Ok(path) => Ok(newfstatat_with(regs, path)),
        Err(fault) => Err(fault),
    }
}

/// Its request, with the path that was read.
fn newfstatat_with(regs: &Regs, path: Bytes) -> Request
    ensures { result ≡ newfstatat_with regs.now path }
{
    Request::Newfstatat {
        dirfd: int(regs, 0),
        path,
        buf: long(regs, 2),
        flags: word(regs, 3),
    }
}

/// fstat(2).
pub fn fstat(regs: &Regs) -> Request
    ensures { decoded_fstat regs.now ≡ Done (Ok result) }
{
    Request::Fstat {
        fd: int(regs, 0),
        buf: long(regs, 1),
    }
}

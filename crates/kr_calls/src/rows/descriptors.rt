//! Calls on descriptors.
ghost use Rattle.std.specs.Prelude.{◌≡◌, Ok};
ghost use Rattle.rv_mem.specs.Actions.{Done};
ghost use Rattle.kr_calls.specs.Decoding.{decoded_dup, decoded_dup3, decoded_fcntl, decoded_ioctl, decoded_fchdir, decoded_fchmod, decoded_fchown, decoded_close, decoded_pipe2};

use crate::arguments::{has_other, int, long, word};
use crate::request::Request;
use bitflags::Flags;
use rv_mem::Regs;
use rv_mem::below::pr_base::{Errno, OpenFlags};

/// dup(2).
pub fn dup(regs: &Regs) -> Request
    ensures { decoded_dup regs.now ≡ Done (Ok result) }
{
    Request::Dup { fd: int(regs, 0) }
}

/// dup3(2): EINVAL for a flag other than O_CLOEXEC, then for two equal descriptors.
pub fn dup3(regs: &Regs) -> Result<Request, Errno>
    ensures { decoded_dup3 regs.now ≡ Done result }
{
    let flags = word(regs, 2);
    if has_other(flags, OpenFlags::CLOEXEC.bits()) || word(regs, 0) == word(regs, 1) {
        return Err(Errno::EINVAL);
    }
    Ok(Request::Dup3 {
        old: int(regs, 0),
        new: int(regs, 1),
        flags,
    })
}

/// fcntl(2). Its commands are tested when it is carried out.
pub fn fcntl(regs: &Regs) -> Request
    ensures { decoded_fcntl regs.now ≡ Done (Ok result) }
{
    Request::Fcntl {
        fd: int(regs, 0),
        cmd: int(regs, 1),
        arg: long(regs, 2),
    }
}

/// ioctl(2).
pub fn ioctl(regs: &Regs) -> Request
    ensures { decoded_ioctl regs.now ≡ Done (Ok result) }
{
    Request::Ioctl { fd: int(regs, 0) }
}

/// fchdir(2).
pub fn fchdir(regs: &Regs) -> Request
    ensures { decoded_fchdir regs.now ≡ Done (Ok result) }
{
    Request::Fchdir { fd: int(regs, 0) }
}

/// fchmod(2).
pub fn fchmod(regs: &Regs) -> Request
    ensures { decoded_fchmod regs.now ≡ Done (Ok result) }
{
    Request::Fchmod {
        fd: int(regs, 0),
        mode: word(regs, 1),
    }
}

/// fchown(2).
pub fn fchown(regs: &Regs) -> Request
    ensures { decoded_fchown regs.now ≡ Done (Ok result) }
{
    Request::Fchown {
        fd: int(regs, 0),
        uid: word(regs, 1),
        gid: word(regs, 2),
    }
}

/// close(2).
pub fn close(regs: &Regs) -> Request
    ensures { decoded_close regs.now ≡ Done (Ok result) }
{
    Request::Close { fd: int(regs, 0) }
}

/// pipe2(2): EINVAL for a flag other than O_CLOEXEC.
pub fn pipe2(regs: &Regs) -> Result<Request, Errno>
    ensures { decoded_pipe2 regs.now ≡ Done result }
{
    let flags = word(regs, 1);
    if has_other(flags, OpenFlags::CLOEXEC.bits()) {
        return Err(Errno::EINVAL);
    }
    Ok(Request::Pipe2 {
        buf: long(regs, 0),
        flags,
    })
}

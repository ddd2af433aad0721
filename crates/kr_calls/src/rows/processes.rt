//! Calls on processes.
ghost use Rattle.std.specs.Prelude.{◌≡◌, Ok};
ghost use Rattle.rv_mem.specs.Actions.{Done};
ghost use Rattle.kr_calls.specs.Decoding.{decoded_getcwd, decoded_exit, decoded_exit_group, decoded_uname, decoded_clone, decoded_wait4};

use crate::arguments::{has_other, int, long, word};
use crate::request::Request;
use rv_mem::Regs;
use rv_mem::below::pr_base::Errno;

/// The flags of wait4(2): WNOHANG 1, WUNTRACED 2 and WCONTINUED 8.
const WAIT_FLAGS: u32 = 0xB;

/// getcwd(2).
pub fn getcwd(regs: &Regs) -> Request
    ensures { decoded_getcwd regs.now ≡ Done (Ok result) }
{
    Request::Getcwd {
        buf: long(regs, 0),
        size: long(regs, 1),
    }
}

/// exit(2).
pub fn exit(regs: &Regs) -> Request
    ensures { decoded_exit regs.now ≡ Done (Ok result) }
{
    Request::Exit { code: int(regs, 0) }
}

/// exit_group(2).
pub fn exit_group(regs: &Regs) -> Request
    ensures { decoded_exit_group regs.now ≡ Done (Ok result) }
{
    Request::ExitGroup { code: int(regs, 0) }
}

/// uname(2).
pub fn uname(regs: &Regs) -> Request
    ensures { decoded_uname regs.now ≡ Done (Ok result) }
{
    Request::Uname { buf: long(regs, 0) }
}

/// clone(2), whose flags are tested when it is carried out. Its third and fourth argument aren't used.
pub fn clone(regs: &Regs) -> Request
    ensures { decoded_clone regs.now ≡ Done (Ok result) }
{
    Request::Clone {
        flags: long(regs, 0),
        sp: long(regs, 1),
        ctid: long(regs, 4),
    }
}

/// wait4(2): EINVAL for an unknown flag.
pub fn wait4(regs: &Regs) -> Result<Request, Errno>
    ensures { decoded_wait4 regs.now ≡ Done result }
{
    if has_other(word(regs, 2), WAIT_FLAGS) {
        return Err(Errno::EINVAL);
    }
    Ok(Request::Wait4 {
        pid: int(regs, 0),
        status: long(regs, 1),
        options: int(regs, 2),
        usage: long(regs, 3),
    })
}

//! Calls on user and group numbers. They are tested when a call is carried out.
ghost use Rattle.std.specs.Prelude.{◌≡◌, Ok, IfNone, IfSome};
ghost use Rattle.rv_mem.specs.Actions.{Action, Done};
ghost use Rattle.kr_calls.specs.Decoding.{Decoded, by_identity, decoded_getresgid, decoded_getresuid, decoded_setresgid, decoded_setresuid};

use crate::arguments::{int, long, word};
use crate::request::Request;
use rv_mem::Regs;

/// setresuid(2).
pub fn setresuid(regs: &Regs) -> Request
    ensures { decoded_setresuid regs.now ≡ Done (Ok result) }
{
    Request::Setresuid {
        ruid: word(regs, 0),
        euid: word(regs, 1),
        suid: word(regs, 2),
    }
}

/// getresuid(2).
pub fn getresuid(regs: &Regs) -> Request
    ensures { decoded_getresuid regs.now ≡ Done (Ok result) }
{
    Request::Getresuid {
        ruid: long(regs, 0),
        euid: long(regs, 1),
        suid: long(regs, 2),
    }
}

/// setresgid(2).
pub fn setresgid(regs: &Regs) -> Request
    ensures { decoded_setresgid regs.now ≡ Done (Ok result) }
{
    Request::Setresgid {
        rgid: word(regs, 0),
        egid: word(regs, 1),
        sgid: word(regs, 2),
    }
}

/// getresgid(2).
pub fn getresgid(regs: &Regs) -> Request
    ensures { decoded_getresgid regs.now ≡ Done (Ok result) }
{
    Request::Getresgid {
        rgid: long(regs, 0),
        egid: long(regs, 1),
        sgid: long(regs, 2),
    }
}

/// The request of a call on users and groups, by its number; `None` where it has another.
pub fn request(number: u64, regs: &Regs) -> Option<Request>
    ensures some { IfSome result (λ request. (other : Action Decoded) → by_identity number regs.now other ≡ Done (Ok request)) }
    ensures none { IfNone result ((other : Action Decoded) → by_identity number regs.now other ≡ other) }
{
    match number {
        143 => Some(Request::Setregid {
            rgid: word(regs, 0),
            egid: word(regs, 1),
        }),
        144 => Some(Request::Setgid { gid: word(regs, 0) }),
        145 => Some(Request::Setreuid {
            ruid: word(regs, 0),
            euid: word(regs, 1),
        }),
        146 => Some(Request::Setuid { uid: word(regs, 0) }),
        147 => Some(setresuid(regs)),
        148 => Some(getresuid(regs)),
        149 => Some(setresgid(regs)),
        150 => Some(getresgid(regs)),
        158 => Some(Request::Getgroups {
            size: int(regs, 0),
            list: long(regs, 1),
        }),
        159 => Some(Request::Setgroups {
            size: int(regs, 0),
            list: long(regs, 1),
        }),
        174 => Some(Request::Getuid),
        175 => Some(Request::Geteuid),
        176 => Some(Request::Getgid),
        177 => Some(Request::Getegid),
        _ => None,
    }
}

//! Why no request was read.

use rv_mem::TextFault;
use rv_mem::below::pr_base::{Errno, NoMemory};

/// Why a call was not decoded.
#[derive(Clone, Copy)]
pub enum CallFault {
    /// The call answers this error.
    Err(Errno),
    NoMemory,
}

impl From<NoMemory> for CallFault {
    ghost use Rattle.std.specs.Prelude.{◌≡◌};
    ghost use Rattle.kr_calls.specs.declared.fault.CallFault.TheVariants.{NoMemory as Wanting};

    ghost from_gives = { λ error call. call ≡ Wanting };

    fn from(_error: NoMemory) -> CallFault {
        CallFault::NoMemory
    }
}

impl From<TextFault> for CallFault {
    ghost use Rattle.std.specs.Prelude.{◌≡◌};
    ghost use Rattle.kr_calls.specs.Decodes.{fault_of};

    ghost from_gives = { λ fault call. call ≡ fault_of fault };

    fn from(fault: TextFault) -> CallFault {
        match fault {
            TextFault::BadAddress => CallFault::Err(Errno::EFAULT),
            TextFault::TooLong => CallFault::Err(Errno::ENAMETOOLONG),
            TextFault::NoMemory => CallFault::NoMemory,
        }
    }
}

impl From<Errno> for CallFault {
    ghost use Rattle.std.specs.Prelude.{◌≡◌};
    ghost use Rattle.kr_calls.specs.declared.fault.CallFault.TheVariants.{Err as Answers};

    ghost from_gives = { λ errno call. call ≡ Answers errno };

    fn from(errno: Errno) -> CallFault {
        CallFault::Err(errno)
    }
}

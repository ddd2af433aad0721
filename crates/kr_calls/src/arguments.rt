//! The arguments of a call in the registers (syscall(2) on RISC-V), and tests that several calls make of them.
ghost use Rattle.std.specs.Prelude.{◌≡◌, ◌<◌};
ghost use Rattle.kr_calls.specs.Arguments.{long, signed_long, word, int, has, has_other, is_unaligned};
ghost use Rattle.kr_calls.specs.Decoding.{stat_flags};

use bitflags::Flags;
use rv_mem::Regs;
use rv_mem::below::pr_base::{AtFlags, PAGE_SIZE};

/// The register of the first argument and of the answer.
const A0: usize = 10;

/// The register of the call's number.
pub const A7: usize = 17;

/// Argument `k` of 64 bits.
pub fn long(regs: &Regs, k: usize) -> u64
    requires { k < 6 }
    ensures { result ≡ long regs.now k }
{
    regs.x[A0 + k]
}

/// Argument `k` of 64 bits with a sign.
pub fn signed_long(regs: &Regs, k: usize) -> i64
    requires { k < 6 }
    ensures { result ≡ signed_long regs.now k }
{
    long(regs, k).cast_signed()
}

/// Argument `k` of 32 bits: the low half of its register.
pub fn word(regs: &Regs, k: usize) -> u32
    requires { k < 6 }
    ensures { result ≡ word regs.now k }
{
    (long(regs, k) % 0x1_0000_0000) as u32
}

/// Argument `k` of 32 bits with a sign.
pub fn int(regs: &Regs, k: usize) -> i32
    requires { k < 6 }
    ensures { result ≡ int regs.now k }
{
    word(regs, k).cast_signed()
}

/// Whether flags have all of these bits.
pub fn has(flags: u32, bits: u32) -> bool
    ensures { result ≡ has flags bits }
{
    flags & bits == bits
}

/// Whether flags have a bit other than the known ones.
pub fn has_other(flags: u32, known: u32) -> bool
    ensures { result ≡ has_other flags known }
{
    flags & known != flags
}

/// Whether an address isn't that of a page.
pub fn is_unaligned(a: u64) -> bool
    ensures { result ≡ is_unaligned a }
{
    a % PAGE_SIZE > 0
}

/// Whether flags have a bit that neither newfstatat(2) nor fchownat(2) knows.
pub fn has_other_stat_flag(flags: u32) -> bool
    ensures { result ≡ has_other flags stat_flags }
{
    has_other(
        flags,
        AtFlags::SYMLINK_NOFOLLOW.bits() | AtFlags::EMPTY_PATH.bits(),
    )
}

/// Whether an empty path means the descriptor.
pub fn allows_empty_path(flags: u32) -> bool
    ensures { result ≡ has flags 0x1000 }
{
    has(flags, AtFlags::EMPTY_PATH.bits())
}

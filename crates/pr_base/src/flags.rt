//! Flags of calls, with the values that Linux gives them.
ghost use Rattle.std.specs.Prelude.{⊤, [], ◌∷◌, codes};

use bitflags::{Flag, Flags, bitflag_items};

/// Flags of open(2), without the prefix `O_`. The access mode is in the two lowest bits: reading alone has none
/// of them set.
#[derive(Clone, Copy)]
pub struct OpenFlags(u32);

bitflag_items! {
    impl OpenFlags: u32 {
        const WRONLY = 0o1;
        const RDWR = 0o2;
        const CREAT = 0o100;
        const EXCL = 0o200;
        const TRUNC = 0o1000;
        const APPEND = 0o2000;
        const DIRECTORY = 0o200000;
        const NOFOLLOW = 0o400000;
        const CLOEXEC = 0o2000000;
    }
}

impl Flags for OpenFlags {
    type Bits = u32;

    ghost exact = { ⊤ };

    ghost table = { (codes "WRONLY", 0x1) ∷ (codes "RDWR", 0x2) ∷ (codes "CREAT", 0x40) ∷ (codes "EXCL", 0x80) ∷ (codes "TRUNC", 0x200) ∷ (codes "APPEND", 0x400) ∷ (codes "DIRECTORY", 0x10000) ∷ (codes "NOFOLLOW", 0x20000) ∷ (codes "CLOEXEC", 0x80000) ∷ [] };

    ghost set_of = { λ flags. flags.0 };

    fn flags<'a>() -> &'a [Flag<OpenFlags>] {
        OpenFlags::FLAGS
    }

    fn bits(&self) -> u32 {
        self.0
    }

    fn from_bits_retain(bits: u32) -> OpenFlags {
        OpenFlags(bits)
    }
}

/// Flags of the calls that take a path relative to a descriptor, without the prefix `AT_`.
#[derive(Clone, Copy)]
pub struct AtFlags(u32);

bitflag_items! {
    impl AtFlags: u32 {
        const SYMLINK_NOFOLLOW = 0x100;
        const REMOVEDIR = 0x200;
        const SYMLINK_FOLLOW = 0x400;
        const EMPTY_PATH = 0x1000;
    }
}

impl Flags for AtFlags {
    type Bits = u32;

    ghost exact = { ⊤ };

    ghost table = { (codes "SYMLINK_NOFOLLOW", 0x100) ∷ (codes "REMOVEDIR", 0x200) ∷ (codes "SYMLINK_FOLLOW", 0x400) ∷ (codes "EMPTY_PATH", 0x1000) ∷ [] };

    ghost set_of = { λ flags. flags.0 };

    fn flags<'a>() -> &'a [Flag<AtFlags>] {
        AtFlags::FLAGS
    }

    fn bits(&self) -> u32 {
        self.0
    }

    fn from_bits_retain(bits: u32) -> AtFlags {
        AtFlags(bits)
    }
}

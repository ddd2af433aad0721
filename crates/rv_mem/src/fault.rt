//! Why a call on a memory is refused.

use rv_table::below::pr_base::NoMemory;
use std::alloc::AllocError;

/// Why pages aren't mapped or copied.
#[derive(Clone, Copy, Debug)]
pub enum MapFault {
    /// The process or the room would pass its limit of pages.
    Full,
    NoMemory,
}

/// A byte isn't mapped with the right.
#[derive(Clone, Copy, Debug)]
pub struct BadAddress;

/// Why bytes aren't written.
#[derive(Clone, Copy, Debug)]
pub enum StoreFault {
    /// A byte isn't mapped with the right to write.
    BadAddress,
    NoMemory,
}

/// Why a text isn't read.
#[derive(Clone, Copy)]
pub enum TextFault {
    /// A byte before the end of the text isn't readable.
    BadAddress,
    /// As many readable bytes as are allowed hold no zero.
    TooLong,
    NoMemory,
}

impl From<NoMemory> for MapFault {
    ghost use Rattle.rv_mem.specs.declared.fault.MapFault.TheVariants.{NoMemory as Wanting};
    ghost use Rattle.std.specs.Prelude.{◌≡◌};

    ghost from_gives = { λ _ fault. fault ≡ Wanting };

    fn from(_want: NoMemory) -> MapFault {
        MapFault::NoMemory
    }
}

impl From<NoMemory> for StoreFault {
    ghost use Rattle.rv_mem.specs.declared.fault.StoreFault.TheVariants.{NoMemory as Wanting};
    ghost use Rattle.std.specs.Prelude.{◌≡◌};

    ghost from_gives = { λ _ fault. fault ≡ Wanting };

    fn from(_want: NoMemory) -> StoreFault {
        StoreFault::NoMemory
    }
}

impl From<AllocError> for TextFault {
    ghost use Rattle.rv_mem.specs.declared.fault.TextFault.TheVariants.{NoMemory as Wanting};
    ghost use Rattle.std.specs.Prelude.{◌≡◌};

    ghost from_gives = { λ _ fault. fault ≡ Wanting };

    fn from(_error: AllocError) -> TextFault {
        TextFault::NoMemory
    }
}

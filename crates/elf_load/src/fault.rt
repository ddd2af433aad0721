//! Why a program isn't loaded.

use rv_mem::below::pr_base::NoMemory;

/// Why a program isn't loaded.
#[derive(Clone, Copy)]
pub enum LoadFault {
    /// The process or all processes together would have too many pages.
    TooManyPages,
    /// There are more than 4,096 arguments or environment texts, or they have more than 131,072 bytes
    /// together with their ends.
    TooManyArgs,
    NoMemory,
}

impl From<NoMemory> for LoadFault {
    ghost use Rattle.elf_load.specs.declared.fault.LoadFault.TheVariants.{NoMemory as Wanting};
    ghost use Rattle.std.specs.Prelude.{◌≡◌};

    ghost from_gives = { λ _ fault. fault ≡ Wanting };

    fn from(_want: NoMemory) -> LoadFault {
        LoadFault::NoMemory
    }
}

//! Why a program has no code.

use std::alloc::AllocError;

/// Why a program has no code. Unbound labels are looked for first, over the whole program.
#[derive(Clone, Copy)]
pub enum AsmFault {
    /// A label is used and isn't bound. `label` is that of the first such use.
    Unbound { label: u32 },
    /// A label stands farther away than the instruction that uses it reaches. `label` is that of the
    /// first such use.
    Far { label: u32 },
    NoMemory,
}

impl From<AllocError> for AsmFault {
    ghost use Rattle.rv_asm.specs.declared.fault.AsmFault.TheVariants.{NoMemory as Wanting};
    ghost use Rattle.std.specs.Prelude.{◌≡◌};

    ghost from_gives = { λ _ fault. fault ≡ Wanting };

    fn from(_error: AllocError) -> AsmFault {
        AsmFault::NoMemory
    }
}

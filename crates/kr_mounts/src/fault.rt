//! Why bindings aren't settled.

use pt_bind::below::pr_base::NoMemory;

/// Why a binding is refused.
#[derive(Clone, Copy)]
pub enum BindWhy {
    /// The source isn't there, or may not be reached.
    NoSource = 1,
    /// The location may not be reached, or a missing name on its way may not be made.
    NoPoint = 2,
    /// A directory would be mounted on what is none, or the other way round.
    Kind = 3,
    /// A link stands on the way of the location.
    LinkOnTheWay = 4,
    /// The root's source is no directory.
    RootNotDir = 5,
    /// The location is the guest's root.
    AtRoot = 6,
}

/// Why bindings aren't settled: the first that is refused, by its index, and why; or want of memory.
#[derive(Clone, Copy)]
pub enum BindFault {
    Bad { index: u32, why: BindWhy },
    NoMemory,
}

impl From<NoMemory> for BindFault {
    ghost use Rattle.std.specs.Prelude.{◌≡◌};
    ghost use Rattle.kr_mounts.specs.declared.fault.BindFault.TheVariants.{NoMemory as RefusedForMemory};

    ghost from_gives = { λ error fault. fault ≡ RefusedForMemory };

    fn from(_error: NoMemory) -> BindFault {
        BindFault::NoMemory
    }
}

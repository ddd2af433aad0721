//! Why a tree refuses a change.

use kr_inode::below::pr_base::NoMemory;

/// Why a tree refuses a change, which leaves it as it was.
#[derive(Clone, Copy)]
pub enum TreeRefusal {
    /// There would be too many inodes, too many names, or too many bytes in all.
    Full,
    /// A file would have too many bytes.
    TooBig,
    NoMemory,
}

impl From<NoMemory> for TreeRefusal {
    ghost use Rattle.std.specs.Prelude.{◌≡◌};
    ghost use Rattle.kr_tree.specs.declared.refusal.TreeRefusal.TheVariants.{NoMemory as RefusedForMemory};

    ghost from_gives = { λ error refusal. refusal ≡ RefusedForMemory };

    fn from(_error: NoMemory) -> TreeRefusal {
        TreeRefusal::NoMemory
    }
}

//! Settled bindings.
ghost use Rattle.std.specs.Prelude.{◌≡◌, map, IfOk};
ghost use Rattle.kr_mounts.specs.Stored.{AreLocated};

use crate::mount::{Mount, copy_bound};
use pt_bind::below::pr_base::{Bound, NoMemory};
use std::alloc::Global;
use std::marker::Model;

/// Bindings as they were settled: a mount for each that counts, the root's first.
#[derive(Drop)]
pub struct Settled {
    mounts: Vec<Mount>,
    bounds: Vec<Bound>,
}

impl Model for Settled {
    ghost use Rattle.std.specs.Prelude.{◌≡◌, List, map};
    ghost use Rattle.kr_mounts.specs.declared.mount.Mount.{Mount};
    ghost use Rattle.kr_mounts.specs.Stored.{AreLocated};

    ghost Value = { List Mount };

    ghost view = { λ s. s.mounts.items };

    ghost invariant = { λ s. (s.bounds.items ≡ map (λ m. m.text) s.mounts.items) × AreLocated s.mounts.items };
}

impl Settled {
    /// Mounts with their texts.
    pub(crate) fn of(alloc: Global, mounts: Vec<Mount>) -> Result<Settled, NoMemory>
        requires { AreLocated mounts.items }
        ensures { IfOk result (λ settled. settled ≡ mounts.items) }
    {
        let mut bounds = Vec::new(alloc);
        for mount in &mounts {
            bounds.push(copy_bound(alloc, &mount.text)?)?;
        }
        Ok(Settled { mounts, bounds })
    }

    /// The mounts, the root's first.
    pub fn mounts(&self) -> &[Mount]
        ensures all { result.now ≡ self.now }
        ensures located { AreLocated self.now }
    {
        self.mounts.as_slice()
    }

    /// The texts of the mounts, as a tracer's table wants them.
    pub fn bounds(&self) -> &[Bound]
        ensures { result.now ≡ map (λ m. m.text) self.now }
    {
        self.bounds.as_slice()
    }
}

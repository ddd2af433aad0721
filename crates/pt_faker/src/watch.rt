//! Who watches on the kernel with mounts.

use crate::faker::Faker;
use crate::graphed::Graphed;
use crate::laws::faker_is_its_definition;
use elf_load::below::pr_base::NoMemory;
use kr_stops::{Stops, Tracee};

/// Who watches the calls of a run on the kernel with mounts.
#[derive(Drop)]
pub enum Watch {
    /// Nobody: processes are the host user's.
    Nobody,
    /// A watcher that gives processes an identity of their own.
    Faked(Faker),
}

impl Stops for Watch {
    ghost use Rattle.std.specs.Prelude.{◌≡◌, false};
    ghost use Rattle.pt_faker.specs.Watches.{born, entered, exited, gone};

    ghost enters = { λ x t y u. (y, u) ≡ entered x t };

    ghost exits = { λ x t y u. (y, u) ≡ exited x t };

    ghost bears = { λ x parent child y. y ≡ born x parent child };

    ghost forgets = { λ x pid y. y ≡ gone x pid };

    ghost asks = { λ x t. false };

    ghost agrees = { λ x t user. Unit {0} };

    ghost is_free = { λ x pid. Unit {0} };

    fn entry<T: Tracee>(&mut self, t: &mut T) -> Result<(), NoMemory> {
        // For the proof alone: the process lives.
        let _pid = t.pid();
        match self {
            Watch::Nobody => Ok(()),
            Watch::Faked(faker) => faker.entry(t),
        }
    }

    fn exit<T: Tracee>(&mut self, t: &mut T) -> Result<(), NoMemory> {
        // For the proof alone: the process lives.
        let _pid = t.pid();
        match self {
            Watch::Nobody => Ok(()),
            Watch::Faked(faker) => faker.exit(t),
        }
    }

    fn born(&mut self, parent: u32, child: u32) -> Result<(), NoMemory> {
        match self {
            Watch::Nobody => Ok(()),
            Watch::Faked(faker) => faker.born(parent, child),
        }
    }

    fn gone(&mut self, pid: u32) {
        match self {
            Watch::Nobody => {}
            Watch::Faked(faker) => faker.gone(pid),
        }
    }

    ghost free_agrees = { λ x pid free t user. tt };

    ghost lasts_with_shape = { λ x t u user sound shape before. tt };
}

impl Graphed for Watch {
    ghost use Rattle.std.specs.Prelude.{false, refl};
    ghost use Rattle.pt_faker.specs.Watches.{watch};
    ghost use Rattle.pt_faker.specs.declared.watch.Watch.{Watch};

    ghost Part = { Watch };

    ghost part = { λ x. x };

    ghost does = { watch };

    ghost asked = { λ x t. false };

    fn is_graph() {
        faker_is_its_definition();
    }

    ghost asks_by_part = { λ x t. refl };
}

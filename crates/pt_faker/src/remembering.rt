//! What is remembered of the file to which a call led.
ghost use Rattle.std.specs.Prelude.{◌≡◌, OnOk};
ghost use Rattle.pt_faker.specs.Faking.{remembered};

use elf_load::below::pr_base::NoMemory;
use pt_ident::{Change, Identities};

/// Remembers what a call said of its target, if it has one and 0 is told. After want of memory the identities may only be dropped.
pub fn remember(
    identities: &mut Identities,
    change: Change,
    target: Option<u64>,
    answer: u64,
) -> Result<(), NoMemory>
    ensures { OnOk result (identities.new ≡ remembered change target answer identities.old) }
{
    if answer == 0 {
        identities.note(target, change)
    } else {
        Ok(())
    }
}

//! The program header table.
ghost use Rattle.std.specs.Prelude.{◌≡◌, ◌≢◌, ◌+◌, ◌*◌, ◌<◌, ◌≤◌, length, MatchOption};
ghost use Rattle.elf_read.specs.Headers.{table_entries};

use crate::headers::{ENTRY_SIZE, ProgramHeader};

/// The most program headers that a file may have.
pub(crate) const MOST_HEADERS: usize = 64;

/// Reads the program headers of the table that begins at `start`, as many as there is room for. `None`
/// where one of them isn't wholly in the file.
pub(crate) fn read_table(file: &[u8], start: u64, table: &mut [ProgramHeader]) -> Option<()>
    requires { length table.old ≤ 64 }
    ensures { let count = length table.old in
        MatchOption result
        ((count ≢ 0) × (length file.now < start + 56 * count))
        (λ _. (count ≢ 0 → start + 56 * count ≤ length file.now)
        × (table.new ≡ table_entries file.now start count)) }
{
    for (k, header) in table.iter_mut().enumerate() {
        let entry = file.get(start as usize..)?.get(k * ENTRY_SIZE..)?;
        *header = ProgramHeader::read(entry)?;
    }
    Some(())
}

//! The rules on a whole file.
ghost use Rattle.std.specs.Prelude.{◌≡◌, ◌≤◌, All, IfErr, IfOk, None, Some, length, take};
ghost use Rattle.elf_read.specs.Headers.{entries_of, file_header};
ghost use Rattle.elf_read.specs.Plans.{IsInOrder, IsSound, plan_of, planned};
ghost use Rattle.elf_read.specs.Rules.{first_broken, first_broken_identity, first_broken_table, is_segment};
ghost use Rattle.std.specs.List.{list_any};

use crate::fault::ElfFault;
use crate::headers::{ENTRY_SIZE, ET_DYN, ET_EXEC, FileHeader, ProgramHeader};
use crate::plan::Plan;
use crate::rules::test_headers;
use crate::table::{MOST_HEADERS, read_table};

/// The first bytes of an ELF file.
const MAGIC: [u8; 4] = [0x7f, b'E', b'L', b'F'];
/// Where `e_ident` has the class, the data's encoding and the version.
const EI_CLASS: usize = 4;

const EI_DATA: usize = 5;

const EI_VERSION: usize = 6;
/// 64-bit objects.
const ELFCLASS64: u8 = 2;
/// Little-endian data.
const ELFDATA2LSB: u8 = 1;
/// The current version.
const EV_CURRENT: u8 = 1;
/// `e_machine` of RISC-V.
const EM_RISCV: u16 = 243;

// Tests the rules on the ELF header, and gives it.
fn identify(file: &[u8]) -> Result<FileHeader, ElfFault>
    ensures ok { IfOk result (λ header. (first_broken_identity file.now ≡ None) × (header ≡ file_header file.now)) }
    ensures err { IfErr result (λ fault. first_broken_identity file.now ≡ Some fault) }
{
    let header = FileHeader::read(file).ok_or(ElfFault::Short)?;
    if !file.starts_with(&MAGIC) {
        return Err(ElfFault::Magic);
    }
    if file[EI_CLASS] != ELFCLASS64
        || file[EI_DATA] != ELFDATA2LSB
        || file[EI_VERSION] != EV_CURRENT
    {
        return Err(ElfFault::Class);
    }
    if header.e_type != ET_EXEC && header.e_type != ET_DYN {
        return Err(ElfFault::Kind);
    }
    if header.e_machine != EM_RISCV {
        return Err(ElfFault::Machine);
    }
    Ok(header)
}

fn has_segment(headers: &[ProgramHeader]) -> bool
    ensures { result ≡ list_any is_segment headers.now }
{
    headers.iter().any(|h| h.is_segment())
}

// Tests the rules on the program header table, reads it to the front of `table`, and tells how many
// entries it has.
fn read_headers(
    file: &[u8],
    header: &FileHeader,
    table: &mut [ProgramHeader],
) -> Result<usize, ElfFault>
    requires { length table.old ≡ 64 }
    ensures ok { IfOk result (λ count.
        (first_broken_table header.now file.now ≡ None)
        × (count ≤ 64)
        × (take count table.new ≡ entries_of header.now file.now)) }
    ensures err { IfErr result (λ fault. first_broken_table header.now file.now ≡ Some fault) }
{
    let count = usize::from(header.e_phnum);
    let entry_size = usize::from(header.e_phentsize);
    if count != 0 && (entry_size != ENTRY_SIZE || count > MOST_HEADERS) {
        return Err(ElfFault::Table);
    }
    let headers = &mut table[..count];
    read_table(file, header.e_phoff, headers).ok_or(ElfFault::Table)?;
    if !has_segment(headers) {
        return Err(ElfFault::NoLoad);
    }
    Ok(count)
}

/// Tests the rules on a whole file: the plan of an accepted file, or the first rule that it breaks.
///
/// The rules and the fields are those of the ELF-64 object file format. Program headers of unknown kinds,
/// `e_flags`, the version word and the entry aren't tested.
pub fn check(file: &[u8]) -> Result<Plan, ElfFault>
    // The answer is Ok exactly where no rule is broken, and else the first one.
    ensures ok { IfOk result (λ plan. (first_broken file.now ≡ None) × (plan ≡ plan_of file.now)) }
    ensures err { IfErr result (λ fault. first_broken file.now ≡ Some fault) }

    // So the segments of an accepted file are in their places, in the file and in order.
    ensures sound { IfOk result (λ plan. All (IsSound (length file.now)) (planned plan)) }
    ensures ordered { IfOk result (λ plan. IsInOrder 0 (planned plan)) }
{
    let header = identify(file)?;
    let mut table = [ProgramHeader::default(); MOST_HEADERS];
    let count = read_headers(file, &header, &mut table)?;
    let headers = &table[..count];
    test_headers(headers, file.len(), header.displacement())?;
    Ok(Plan::new(&header, headers))
}

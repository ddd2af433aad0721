//! The shelf of a call with a path.
ghost use Rattle.std.specs.Prelude.{◌≡◌};
ghost use Rattle.kr_seen.specs.rv_mem.Memory.{page_count};
ghost use Rattle.kr_calm.specs.Shelf.{is_usable, lacks_shelf_by, shelved_by};

use kr_seen::below::{Regs, SHELF, Space, Use, has_path};

/// The register of a call's number.
const A7: usize = 17;

/// The stack pointer.
const SP: usize = 2;

/// Whether the bytes below a stack pointer can all be read and written.
fn is_usable<const M: u8>(sp: u64, mem: &Space<M>) -> bool
    ensures { result ≡ is_usable sp mem.now.pages }
{
    if sp < SHELF {
        return false;
    }
    let from = sp - SHELF;
    mem.can(from, SHELF, Use::Read) && mem.can(from, SHELF, Use::Write)
}

/// Marks the shelf of a process that stands at a call, where the call has a path. Whether it has no shelf that could be marked
/// (rule 1). Where marks aren't kept it does nothing.
pub fn mark_shelf<const M: u8>(regs: &Regs, mem: &mut Space<M>) -> bool
    ensures marks { mem.new ≡ shelved_by M regs.now mem.old }
    ensures lacks { result ≡ lacks_shelf_by M regs.now mem.old }
    ensures count { page_count mem.new.pages ≡ page_count mem.old.pages }
{
    if M == 0 || !has_path(regs.x[A7]) {
        return false;
    }
    let sp = regs.x[SP];
    if !is_usable(sp, mem) {
        return true;
    }
    mem.mark(sp - SHELF, sp);
    false
}

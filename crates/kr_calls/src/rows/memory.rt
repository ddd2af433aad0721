//! Calls on the memory of the caller.
ghost use Rattle.std.specs.Prelude.{◌≡◌, ◌+◌, nat_lt, Ok};
ghost use Rattle.rv_mem.specs.Actions.{Done};
ghost use Rattle.kr_calls.specs.Decoding.{decoded_brk, decoded_munmap, decoded_mmap, decoded_mprotect, has_bad_map_flags};

use crate::arguments::{is_unaligned, long};
use crate::request::Request;
use rv_mem::below::pr_base::Errno;
use rv_mem::{PAGES_END, Regs};

/// The kinds of mapping among the low four bits of `flags`, and MAP_PRIVATE, the one that is built.
const MAP_TYPE: u64 = 0xF;

const MAP_PRIVATE: u64 = 0x2;

/// The mapping stands at the address that is given.
const MAP_FIXED: u64 = 0x10;

/// The mapping has no file.
const MAP_ANONYMOUS: u64 = 0x20;

/// All rights: PROT_READ 1, PROT_WRITE 2 and PROT_EXEC 4.
const ALL_RIGHTS: u64 = 7;

/// brk(2).
pub fn brk(regs: &Regs) -> Request
    ensures { decoded_brk regs.now ≡ Done (Ok result) }
{
    Request::Brk { a: long(regs, 0) }
}

/// munmap(2): EINVAL for an address of no page, an empty range, or one that passes the end of all pages.
pub fn munmap(regs: &Regs) -> Result<Request, Errno>
    ensures { decoded_munmap regs.now ≡ Done result }
{
    let a = long(regs, 0);
    let len = long(regs, 1);
    if is_unaligned(a) || len == 0 || passes_end(a, len) {
        return Err(Errno::EINVAL);
    }
    Ok(Request::Munmap { a, len })
}

/// mmap(2): EINVAL for an empty range, unknown rights, flags that aren't built, or a fixed address of no page.
pub fn mmap(regs: &Regs) -> Result<Request, Errno>
    ensures { decoded_mmap regs.now ≡ Done result }
{
    let a = long(regs, 0);
    let len = long(regs, 1);
    let prot = long(regs, 2);
    let flags = long(regs, 3);
    if len == 0 || prot > ALL_RIGHTS || has_bad_map_flags(flags, a) {
        return Err(Errno::EINVAL);
    }
    Ok(Request::Mmap {
        a,
        len,
        prot,
        flags,
    })
}

/// mprotect(2): EINVAL for an address of no page or unknown rights.
pub fn mprotect(regs: &Regs) -> Result<Request, Errno>
    ensures { decoded_mprotect regs.now ≡ Done result }
{
    let a = long(regs, 0);
    let prot = long(regs, 2);
    if is_unaligned(a) || prot > ALL_RIGHTS {
        return Err(Errno::EINVAL);
    }
    Ok(Request::Mprotect {
        a,
        len: long(regs, 1),
        prot,
    })
}

/// Whether a range, as a whole number, passes the end of all pages.
fn passes_end(a: u64, len: u64) -> bool
    ensures { result ≡ nat_lt PAGES_END (a + len) }
{
    a > PAGES_END || len > PAGES_END - a
}

/// Whether flags ask for what isn't built, or for a fixed address that isn't that of a page.
fn has_bad_map_flags(flags: u64, a: u64) -> bool
    ensures { result ≡ has_bad_map_flags flags a }
{
    flags & MAP_TYPE != MAP_PRIVATE
        || flags & MAP_ANONYMOUS != MAP_ANONYMOUS
        || (flags & MAP_FIXED == MAP_FIXED && is_unaligned(a))
}

//! Trees over which kernels begin.
ghost use Rattle.std.specs.Prelude.{IfOk};
ghost use Rattle.kr_loose.specs.kr_view.View.{plain};
ghost use Rattle.core_tests.specs.Ready.{IsReady};

use guests::below::read;
use kr_loose::below::{Tree, User, trees_are_kept};
use std::alloc::Global;
use std::test::Fail;

/// The tree of a listing, with the ELF file for its program, and its user.
pub fn listed(alloc: Global, listing: &[u8], elf: &[u8]) -> Result<(Tree, User), Fail>
    ensures { IfOk result (λ read. IsReady read.0 read.1 plain) }
{
    let Ok((tree, user)) = read(alloc, listing, Some(elf)) else {
        return Err(Fail::from("no listing"));
    };
    trees_are_kept(&tree);
    Ok((tree, user))
}

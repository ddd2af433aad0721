//! A case of a fixed pattern, made from a number.
ghost use Rattle.std.specs.Prelude.{◌≡◌, ◌≤◌, IfOk};
ghost use Rattle.kr_text.specs.kr_tree.Lawful.{AreBytes};
ghost use Rattle.pr_gen.specs.Case.{IsCase, bind_of, case_binds, case_command, case_root};

use crate::draws::Draws;
use crate::guest::guest;
use crate::listing::case_listing;
use kr_text::below::kr_tree::{Tree, User};
use kr_text::{ListFault, read};
use rv_asm::below::{Bind, Bytes, NoMemory, Texts};
use std::alloc::Global;

/// The parts of a case: the host's tree and its user, and what the words ask for.
#[derive(Drop)]
pub struct CaseParts {
    pub tree: Tree,
    pub user: User,
    /// The path of the guest's root directory.
    pub root: Bytes,
    pub binds: Vec<Bind>,
    pub command: Texts,
}

/// A binding.
fn bind(alloc: Global, index: u32, host: &[u8], guest: &[u8]) -> Result<Bind, NoMemory>
    ensures { IfOk result (λ bind. bind ≡ bind_of index host.now guest.now) }
{
    Ok(Bind {
        index,
        host: Bytes::copy(alloc, host)?,
        guest: Bytes::copy(alloc, guest)?,
        keep: false,
    })
}

/// The bindings: a directory in the guest, and one that is reached through the first.
fn binds(alloc: Global) -> Result<Vec<Bind>, NoMemory>
    ensures { IfOk result (λ binds. binds.items ≡ case_binds) }
{
    let mut binds = Vec::new(alloc);
    binds.push(bind(alloc, 1, b"/s", b"/d1/m")?)?;
    binds.push(bind(alloc, 2, b"/t", b"/d1/m/n")?)?;
    Ok(binds)
}

/// The command.
fn command(alloc: Global) -> Result<Texts, NoMemory>
    ensures { IfOk result (λ command. command ≡ case_command) }
{
    let mut command = Texts::new(alloc);
    command.push(Bytes::copy(alloc, b"/p")?)?;
    Ok(command)
}

/// That bytes are below 256, which a proof is told of a slice alone.
fn are_bytes(bytes: &[u8])
    ensures { AreBytes bytes.now }
{}

/// The case of a number, up to 65,535. Its guest makes three children; each of the four processes then opens, reads, renames and stats files
/// that are drawn by the number.
pub fn case(alloc: Global, n: u32) -> Result<CaseParts, NoMemory>
    requires { n ≤ 65535 }
    ensures { IfOk result (λ parts. IsCase n parts) }
{
    let mut draws = Draws {
        state: u64::from(n),
    };
    let listing = case_listing(alloc, &mut draws)?;
    let file = guest(alloc, draws)?;
    are_bytes(file.as_slice());
    let (tree, user) = match read(alloc, listing.as_slice(), Some(file.as_slice())) {
        Ok(read) => read,
        Err(ListFault::NoMemory) => return Err(NoMemory),
        Err(ListFault::Bad { .. }) => unreachable!(),
    };
    Ok(CaseParts {
        tree,
        user,
        root: Bytes::copy(alloc, b"/g")?,
        binds: binds(alloc)?,
        command: command(alloc)?,
    })
}

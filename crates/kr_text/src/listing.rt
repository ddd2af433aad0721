//! Whole listings.
ghost use Rattle.std.specs.Prelude.{◌≡◌, [], nat_eq, codes, IsTrue, IsSome, IfSome, IfOk, OnOk};
ghost use Rattle.std.specs.Option.{option_copied, unwrap_or};
ghost use Rattle.std.specs.List.{starts_with};
ghost use Rattle.kr_text.specs.Reading.{wants_elf, finished, line_added, listing_of};
ghost use Rattle.kr_text.specs.Drawn.{IsDrawn};
ghost use Rattle.kr_text.specs.Results.{AddsLine, IsListing};

use crate::fault::{LineFault, ListFault, TreeWhy};
use crate::pieces::Pieces;
use crate::so_far::SoFar;
use kr_tree::{Tree, User};
use std::alloc::Global;

/// Whether a line is that of a file with the ELF source's bytes.
fn begins_elf(line: &[u8]) -> bool
    ensures { result ≡ starts_with nat_eq line.now (codes "x ") }
{
    line.starts_with(b"x ")
}

/// Whether a line of the listing begins with `x `, as that of a file with the ELF source's bytes
/// does.
pub fn wants_elf(bytes: &[u8]) -> bool
    ensures { result ≡ wants_elf bytes.now }
{
    let mut lines = Pieces::of(bytes, b'\n');
    while let Some(line) = lines.next() {
        if begins_elf(line) {
            return true;
        }
    }
    false
}

/// Reads one line, its newline left out.
fn read_line(
    alloc: Global,
    elf: &[u8],
    line: &[u8],
    number: u32,
    so_far: &mut SoFar,
) -> Result<(), ListFault>
    requires { IfSome so_far.old.tree IsDrawn }
    ensures value { AddsLine number (line_added elf.now line.now so_far.old) result so_far.new }
    ensures drawn { OnOk result (IfSome so_far.new.tree IsDrawn) }
{
    match so_far.read(alloc, elf, line) {
        Ok(()) => Ok(()),
        Err(LineFault::Bad(why)) => Err(ListFault::Bad { line: number, why }),
        Err(LineFault::NoMemory) => Err(ListFault::NoMemory),
    }
}

/// The tree and the user at the end of a listing.
fn finished(number: u32, so_far: SoFar) -> Result<(Tree, User), ListFault>
    requires { IfSome so_far.tree IsDrawn }
    ensures value { result ≡ finished number so_far.tree so_far.user }
    ensures drawn { IfOk result (λ read. IsDrawn read.0) }
{
    let user = so_far.user;
    let Some(tree) = so_far.tree else {
        return Err(ListFault::Bad {
            line: number,
            why: TreeWhy::NoRoot,
        });
    };
    let Some(user) = user else {
        return Err(ListFault::Bad {
            line: number,
            why: TreeWhy::NoUser,
        });
    };
    Ok((tree, user))
}

/// Reads a listing line after line.
fn read_lines(alloc: Global, bytes: &[u8], elf: &[u8]) -> Result<(Tree, User), ListFault>
    ensures listing { IsListing (listing_of elf.now bytes.now) result }
    ensures drawn { IfOk result (λ read. IsDrawn read.0) }
{
    let mut so_far = SoFar::new();
    let mut number: u32 = 1;
    let (first, mut lines) = Pieces::begin(bytes, b'\n');
    let mut line = first;
    while let Some(next) = lines.next() {
        read_line(alloc, elf, line, number, &mut so_far)?;
        line = next;
        number = number.saturating_add(1);
    }
    if line.is_empty() {
        finished(number, so_far)
    } else {
        Err(ListFault::Bad {
            line: number,
            why: TreeWhy::Form,
        })
    }
}

/// The bytes of the ELF source, none where there is no source.
fn source_bytes(elf: Option<&[u8]>) -> &[u8]
    ensures { result.now ≡ unwrap_or (option_copied elf.entry) [] }
{
    match elf {
        Some(bytes) => bytes,
        None => &[],
    }
}

/// Reads a listing: its tree and its user, or its first bad line. The bytes of the ELF source are
/// those of the file of the line that begins with `x `, where there is one. In the tree nothing is
/// held, the inodes' numbers are those from 1 on, and each next number is one after the last: that of
/// inodes, and in each directory that of serials, which begin at 3.
pub fn read(alloc: Global, bytes: &[u8], elf: Option<&[u8]>) -> Result<(Tree, User), ListFault>
    requires { IsTrue (wants_elf bytes.now) → IsSome elf }
    ensures listing { IsListing (listing_of (unwrap_or (option_copied elf.entry) []) bytes.now) result }
    ensures drawn { IfOk result (λ read. IsDrawn read.0) }
{
    let source = source_bytes(elf);
    read_lines(alloc, bytes, source)
}

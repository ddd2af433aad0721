//! What one line says.
ghost use Rattle.std.specs.Prelude.{◌≡◌};
ghost use Rattle.kr_text.specs.Lines.{user_line, owner_of, dir_line, file_line, elf_line, link_line, name_line, proc_line, line_of};
ghost use Rattle.kr_text.specs.Answers.{IsRead};

use crate::fault::{LineFault, TreeWhy};
use crate::number::{id_of, mode_of};
use crate::path::{Path, bytes_of, text_of};
use crate::pieces::Pieces;
use kr_tree::User;
use kr_tree::below::pr_base::Bytes;
use std::alloc::Global;

/// The mode of every link.
const LINK_MODE: u16 = 0o777;

/// Mode, owner and group of what a line adds.
#[derive(Clone, Copy)]
pub(crate) struct Owner {
    pub(crate) mode: u16,
    pub(crate) uid: u32,
    pub(crate) gid: u32,
}

/// What a line says.
#[derive(Drop)]
pub(crate) enum Line {
    User(User),
    Dir(Owner, Path),
    File(Owner, Path, Bytes),
    /// A file with the bytes of the ELF source.
    Elf(Owner, Path),
    Link(Owner, Path, Bytes),
    /// A further name of a file, and the file's earlier name.
    Name(Path, Path),
    /// The process directory.
    Proc(Path),
}

#[tactic(auto, using(crate::proofs::LineLemmas::line_parts))]
fn user_line(fields: Pieces<'_>) -> Result<Line, TreeWhy>
    ensures { result ≡ user_line fields.entry }
{
    let Some((uid, gid)) = fields.two() else {
        return Err(TreeWhy::Form);
    };
    let uid = id_of(uid)?;
    let gid = id_of(gid)?;
    if uid == 0 {
        Err(TreeWhy::RootUser)
    } else {
        Ok(Line::User(User { uid, gid }))
    }
}

fn owner_of(mode: &[u8], uid: &[u8], gid: &[u8]) -> Result<Owner, TreeWhy>
    ensures { result ≡ owner_of mode.now uid.now gid.now }
{
    let mode = mode_of(mode)?;
    let uid = id_of(uid)?;
    let gid = id_of(gid)?;
    Ok(Owner { mode, uid, gid })
}

#[tactic(auto, using(crate::proofs::LineLemmas::line_parts))]
fn dir_line(alloc: Global, fields: Pieces<'_>) -> Result<Line, LineFault>
    ensures { IsRead (dir_line fields.entry) result }
{
    let Some((mode, uid, gid, path)) = fields.four() else {
        return Err(LineFault::Bad(TreeWhy::Form));
    };
    let owner = owner_of(mode, uid, gid)?;
    let path = Path::read(alloc, path)?;
    Ok(Line::Dir(owner, path))
}

#[tactic(auto, using(crate::proofs::LineLemmas::line_parts))]
fn file_line(alloc: Global, fields: Pieces<'_>) -> Result<Line, LineFault>
    ensures { IsRead (file_line fields.entry) result }
{
    let Some((mode, uid, gid, path, hex)) = fields.five() else {
        return Err(LineFault::Bad(TreeWhy::Form));
    };
    let bytes = bytes_of(alloc, hex)?;
    let owner = owner_of(mode, uid, gid)?;
    let path = Path::read(alloc, path)?;
    Ok(Line::File(owner, path, bytes))
}

#[tactic(auto, using(crate::proofs::LineLemmas::line_parts))]
fn elf_line(alloc: Global, fields: Pieces<'_>) -> Result<Line, LineFault>
    ensures { IsRead (elf_line fields.entry) result }
{
    let Some((mode, uid, gid, path)) = fields.four() else {
        return Err(LineFault::Bad(TreeWhy::Form));
    };
    let owner = owner_of(mode, uid, gid)?;
    let path = Path::read(alloc, path)?;
    Ok(Line::Elf(owner, path))
}

#[tactic(auto, using(crate::proofs::LineLemmas::line_parts))]
fn link_line(alloc: Global, fields: Pieces<'_>) -> Result<Line, LineFault>
    ensures { IsRead (link_line fields.entry) result }
{
    let Some((uid, gid, path, text)) = fields.four() else {
        return Err(LineFault::Bad(TreeWhy::Form));
    };
    let uid = id_of(uid)?;
    let gid = id_of(gid)?;
    let path = Path::read(alloc, path)?;
    let text = text_of(alloc, text)?;
    let owner = Owner {
        mode: LINK_MODE,
        uid,
        gid,
    };
    Ok(Line::Link(owner, path, text))
}

#[tactic(auto, using(crate::proofs::LineLemmas::line_parts))]
fn name_line(alloc: Global, fields: Pieces<'_>) -> Result<Line, LineFault>
    ensures { IsRead (name_line fields.entry) result }
{
    let Some((path, existing)) = fields.two() else {
        return Err(LineFault::Bad(TreeWhy::Form));
    };
    let path = Path::read(alloc, path)?;
    let existing = Path::read(alloc, existing)?;
    Ok(Line::Name(path, existing))
}

#[tactic(auto, using(crate::proofs::LineLemmas::line_parts))]
fn proc_line(alloc: Global, fields: Pieces<'_>) -> Result<Line, LineFault>
    ensures { IsRead (proc_line fields.entry) result }
{
    let Some(path) = fields.one() else {
        return Err(LineFault::Bad(TreeWhy::Form));
    };
    let path = Path::read(alloc, path)?;
    Ok(Line::Proc(path))
}

impl Line {
    /// What a line says, its newline left out.
    pub(crate) fn read(alloc: Global, line: &[u8]) -> Result<Line, LineFault>
        ensures { IsRead (line_of line.now) result }
    {
        let mut fields = Pieces::of(line, b' ');
        let Some(kind) = fields.next() else {
            return Err(LineFault::Bad(TreeWhy::Form));
        };
        if kind == b"user".as_slice() {
            Ok(user_line(fields)?)
        } else if kind == b"d".as_slice() {
            dir_line(alloc, fields)
        } else if kind == b"f".as_slice() {
            file_line(alloc, fields)
        } else if kind == b"x".as_slice() {
            elf_line(alloc, fields)
        } else if kind == b"l".as_slice() {
            link_line(alloc, fields)
        } else if kind == b"h".as_slice() {
            name_line(alloc, fields)
        } else if kind == b"p".as_slice() {
            proc_line(alloc, fields)
        } else {
            Err(LineFault::Bad(TreeWhy::Form))
        }
    }
}

//! Fields and lines as they are written.
ghost use Rattle.std.specs.Prelude.{◌≡◌, ◌∷◌, ◌++◌, [], IfOk, OnOk};
ghost use Rattle.std.specs.Option.{option_copied};
ghost use Rattle.std.specs.Fmt.{decimal};
ghost use Rattle.hex.specs.Hex.{encode_lower};
ghost use Rattle.kr_text.specs.Canonical.{escape, escaped, octal, bytes_field, user_line, dir_line, first_line, name_line, link_line, proc_line, file_line, line_at};

use crate::escape::is_plain;
use crate::line::Owner;
use crate::names::{FullPath, Named};
use kr_tree::below::pr_base::NoMemory;
use kr_tree::{Kind, Tree, User};
use std::alloc::Global;

/// Hex digits in lower case.
const DIGITS: [u8; 16] = *b"0123456789abcdef";

/// The two hex digits of a byte.
#[tactic(auto, unfolding(hex::specs::Hex::encode_with))]
fn hex_digits(byte: u8) -> [u8; 2]
    ensures { result ≡ encode_lower (byte ∷ []) }
{
    [DIGITS[(byte / 16) as usize], DIGITS[(byte % 16) as usize]]
}

/// Adds a byte, as an escape where it doesn't stand for itself.
fn escape(out: &mut Vec<u8>, byte: u8) -> Result<(), NoMemory>
    ensures { OnOk result (out.new.items ≡ out.old.items ++ escape byte) }
{
    if is_plain(byte) {
        out.push(byte)?;
    } else {
        out.push(b'%')?;
        out.extend_from_slice(&hex_digits(byte))?;
    }
    Ok(())
}

/// Adds bytes.
fn put(out: &mut Vec<u8>, bytes: &[u8]) -> Result<(), NoMemory>
    ensures { OnOk result (out.new.items ≡ out.old.items ++ bytes.now) }
{
    out.extend_from_slice(bytes)?;
    Ok(())
}

/// Bytes in two parts: those in front that stand for themselves, and the others.
fn split_plain(bytes: &[u8]) -> (&[u8], &[u8])
    ensures parts { bytes.now ≡ result.0.now ++ result.1.now }
    ensures plain { escaped result.0.now ≡ result.0.now }
{
    for (at, byte) in bytes.iter().enumerate() {
        if !is_plain(*byte) {
            return (&bytes[..at], &bytes[at..]);
        }
    }
    (bytes, &[])
}

/// Adds bytes with their escapes.
fn escaped(out: &mut Vec<u8>, bytes: &[u8]) -> Result<(), NoMemory>
    ensures { OnOk result (out.new.items ≡ out.old.items ++ escaped bytes.now) }
{
    let (plain, mut rest) = split_plain(bytes);
    put(out, plain)?;
    while let Some((byte, behind)) = rest.split_first() {
        escape(out, *byte)?;
        let (plain, others) = split_plain(behind);
        put(out, plain)?;
        rest = others;
    }
    Ok(())
}

/// Adds a file's bytes in hex digits, or `-` where there are none.
fn bytes_field(alloc: Global, out: &mut Vec<u8>, bytes: &[u8]) -> Result<(), NoMemory>
    ensures { OnOk result (out.new.items ≡ out.old.items ++ bytes_field bytes.now) }
{
    if bytes.is_empty() {
        return put(out, b"-");
    }
    let digits = hex::encode(alloc, bytes)?;
    put(out, digits.as_bytes())
}

/// `user UID GID`
pub(crate) fn user_line(alloc: Global, user: User) -> Result<Vec<u8>, NoMemory>
    ensures { IfOk result (λ out. out.items ≡ user_line user) }
{
    let uid = user.uid;
    let gid = user.gid;
    let line = format!(in alloc; "user {uid} {gid}\n")?;
    Ok(line.into_bytes())
}

/// Adds a user's and a group's number, with a space behind each.
fn ids(alloc: Global, out: &mut Vec<u8>, owner: Owner) -> Result<(), NoMemory>
    ensures { OnOk result (out.new.items ≡ out.old.items ++ (decimal owner.uid ++ 32 ∷ (decimal owner.gid ++ 32 ∷ []))) }
{
    let Owner { uid, gid, .. } = owner;
    let fields = format!(in alloc; "{uid} {gid} ")?;
    put(out, fields.as_bytes())
}

/// Adds a mode in octal digits, and a space behind it.
fn mode(alloc: Global, out: &mut Vec<u8>, mode: u16) -> Result<(), NoMemory>
    ensures { OnOk result (out.new.items ≡ out.old.items ++ (octal mode ++ 32 ∷ [])) }
{
    let field = format!(in alloc; "{mode:o} ")?;
    put(out, field.as_bytes())
}

/// `d MODE UID GID PATH`
fn dir_line(alloc: Global, out: &mut Vec<u8>, path: &FullPath, owner: Owner) -> Result<(), NoMemory>
    ensures { OnOk result (out.new.items ≡ out.old.items ++ dir_line path.now owner) }
{
    put(out, b"d ")?;
    mode(alloc, out, owner.mode)?;
    ids(alloc, out, owner)?;
    escaped(out, path.as_slice())?;
    put(out, b"\n")
}

/// Adds the end of a file's line: a space, its bytes and the newline.
fn bytes_end(alloc: Global, out: &mut Vec<u8>, bytes: &[u8]) -> Result<(), NoMemory>
    ensures { OnOk result (out.new.items ≡ out.old.items ++ 32 ∷ (bytes_field bytes.now ++ 10 ∷ [])) }
{
    put(out, b" ")?;
    bytes_field(alloc, out, bytes)?;
    put(out, b"\n")
}

/// `f MODE UID GID PATH HEX`
fn first_line(
    alloc: Global,
    out: &mut Vec<u8>,
    path: &FullPath,
    owner: Owner,
    bytes: &[u8],
) -> Result<(), NoMemory>
    ensures { OnOk result (out.new.items ≡ out.old.items ++ first_line path.now owner bytes.now) }
{
    put(out, b"f ")?;
    mode(alloc, out, owner.mode)?;
    ids(alloc, out, owner)?;
    escaped(out, path.as_slice())?;
    bytes_end(alloc, out, bytes)
}

/// `h PATH EXISTING`
fn name_line(out: &mut Vec<u8>, path: &FullPath, first: &FullPath) -> Result<(), NoMemory>
    ensures { OnOk result (out.new.items ≡ out.old.items ++ name_line path.now first.now) }
{
    put(out, b"h ")?;
    escaped(out, path.as_slice())?;
    put(out, b" ")?;
    escaped(out, first.as_slice())?;
    put(out, b"\n")
}

/// `l UID GID PATH TEXT`
fn link_line(
    alloc: Global,
    out: &mut Vec<u8>,
    path: &FullPath,
    owner: Owner,
    text: &[u8],
) -> Result<(), NoMemory>
    ensures { OnOk result (out.new.items ≡ out.old.items ++ link_line path.now owner text.now) }
{
    put(out, b"l ")?;
    ids(alloc, out, owner)?;
    escaped(out, path.as_slice())?;
    put(out, b" ")?;
    escaped(out, text)?;
    put(out, b"\n")
}

/// `p PATH`
fn proc_line(out: &mut Vec<u8>, path: &FullPath) -> Result<(), NoMemory>
    ensures { OnOk result (out.new.items ≡ out.old.items ++ proc_line path.now) }
{
    put(out, b"p ")?;
    escaped(out, path.as_slice())?;
    put(out, b"\n")
}

/// The line of a file: its bytes at its first name, and that first name at each other one.
fn file_line(
    alloc: Global,
    out: &mut Vec<u8>,
    path: &FullPath,
    owner: Owner,
    bytes: &[u8],
    first: Option<&FullPath>,
) -> Result<(), NoMemory>
    ensures { OnOk result (out.new.items ≡ out.old.items ++ file_line path.now owner bytes.now (option_copied first.entry)) }
{
    match first {
        None => first_line(alloc, out, path, owner, bytes),
        Some(first) => name_line(out, path, first),
    }
}

/// Adds the line of a name. A file's first name, if that isn't this one, is `first`.
pub(crate) fn line_at(
    alloc: Global,
    out: &mut Vec<u8>,
    tree: &Tree,
    name: &Named,
    first: Option<&FullPath>,
) -> Result<(), NoMemory>
    ensures { OnOk result (out.new.items ≡ out.old.items ++ line_at tree.now name.now (option_copied first.entry)) }
{
    let path = &name.path;
    let Some(meta) = tree.meta(name.ino) else {
        return Ok(());
    };
    let owner = Owner {
        mode: meta.mode,
        uid: meta.uid,
        gid: meta.gid,
    };
    if let Some(bytes) = tree.file(name.ino) {
        return file_line(alloc, out, path, owner, bytes, first);
    }
    if let Some(text) = tree.link_text(name.ino) {
        return link_line(alloc, out, path, owner, text);
    }
    if tree.kind(name.ino) == Some(Kind::Proc) {
        proc_line(out, path)
    } else {
        dir_line(alloc, out, path, owner)
    }
}

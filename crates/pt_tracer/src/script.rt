//! What the plain kernel is shown of a script that is run.
ghost use Rattle.std.specs.Prelude.{◌≡◌, ◌-◌, ◌≤◌, ◌++◌, nat_lt, not, IfOk, OnOk, length};
ghost use Rattle.std.specs.Option.{SomeIff};
ghost use Rattle.pt_tracer.specs.ScriptEdit.{addresses_of, put_texts, script_edit, script_room, shelved_script, texts_room, with_texts};

use pt_faker::below::{Bytes, Errno, NoMemory, PATH_MAX, SHELF, Texts};
use pt_results::below::{Edit, Shelf, Swaps};
use std::alloc::Global;

/// How many bytes a host text has at most, without its zero.
const LONGEST: usize = PATH_MAX - 1;

/// What a text takes at most beside its bytes: its zero, and where it has to begin at an address divisible by 8.
const TEXT_ROOM: usize = 8;

/// The bytes of an address.
const ADDRESS_SIZE: usize = 8;

/// What the list takes beside its addresses: the address 0, and where it has to begin at one divisible by 8.
const LIST_ROOM: usize = 15;

/// a0 and a1, which have the addresses of the path and of the arguments.
const PATH: u8 = 10;

const ARGUMENTS: u8 = 11;

/// Shows the host text of the last interpreter, the texts that scripts put before the arguments, and the addresses of all arguments, all on
/// the shelf below `sp`. As many texts as `kept` at the end of the new list are the caller's own, whose addresses are given as bytes.
/// ENAMETOOLONG where the host text is no path, and E2BIG where the shelf is too small.
pub(crate) fn script_edit(
    alloc: Global,
    sp: u64,
    host: Bytes,
    args: Texts,
    kept: usize,
    addresses: &[u8],
) -> Result<Edit, NoMemory>
    requires { 65536 ≤ sp }
    ensures { IfOk result (λ edit. edit ≡ script_edit sp host (put_texts kept args) addresses.now) }
{
    if host.len() > LONGEST {
        return Ok(Edit::Cancel(Errno::ENAMETOOLONG));
    }
    let texts = put_texts(args, kept);
    if !fits(host.as_slice(), texts.as_slice(), addresses) {
        return Ok(Edit::Cancel(Errno::E2BIG));
    }
    shelved_script(alloc, sp, host, texts.as_slice(), addresses)
}

/// The texts before the kept ones.
fn put_texts(args: Texts, kept: usize) -> Vec<Bytes>
    ensures { result.items ≡ put_texts kept args }
{
    let count = args.len().saturating_sub(kept);
    let mut texts = args.into_vec();
    texts.truncate(count);
    texts
}

/// The room that is left behind texts, if it is enough for them.
fn room_behind(texts: &[Bytes], room: usize) -> Option<usize>
    ensures { SomeIff result (texts_room texts.now ≤ room) (room - texts_room texts.now) }
{
    let Some((text, others)) = texts.split_first() else {
        return Some(room);
    };
    let left = room.checked_sub(text.len())?.checked_sub(TEXT_ROOM)?;
    room_behind(others, left)
}

/// Whether the shelf holds all of it. The host text has at most 4,095 bytes.
fn fits(host: &[u8], texts: &[Bytes], addresses: &[u8]) -> bool
    requires { length host.now ≤ 4095 }
    ensures { result ≡ not (nat_lt 65536 (script_room host.now texts.now addresses.now)) }
{
    let Some(left) = room_behind(texts, SHELF as usize) else {
        return false;
    };
    let path = host.len() + TEXT_ROOM;
    let list = ADDRESS_SIZE * texts.len() + addresses.len() + LIST_ROOM;
    path + list <= left
}

/// What is shown of a script whose texts and addresses have room on the shelf.
fn shelved_script(
    alloc: Global,
    sp: u64,
    host: Bytes,
    texts: &[Bytes],
    addresses: &[u8],
) -> Result<Edit, NoMemory>
    requires { script_room host texts.now addresses.now ≤ sp }
    ensures { IfOk result (λ edit. edit ≡ shelved_script sp host texts.now addresses.now) }
{
    let mut shelf = Shelf::below(alloc, sp);
    let path = shelf.put_text(host)?;
    let mut list = Bytes::new(alloc);
    put_all(alloc, &mut shelf, &mut list, texts)?;
    list.append(addresses)?;
    list.append(&0u64.to_le_bytes())?;
    let arguments = shelf.put(list)?;
    let mut regs = Swaps::new(alloc);
    regs.push(PATH, path)?;
    regs.push(ARGUMENTS, arguments)?;
    let pokes = shelf.into_items();
    Ok(Edit::Swap { regs, pokes })
}

/// Puts texts on the shelf, and their addresses into a list.
fn put_all(
    alloc: Global,
    shelf: &mut Shelf,
    list: &mut Bytes,
    texts: &[Bytes],
) -> Result<(), NoMemory>
    requires { texts_room texts.now ≤ shelf.old.top }
    ensures shelf { OnOk result (shelf.new ≡ with_texts shelf.old texts.now) }
    ensures list { OnOk result (list.new ≡ list.old ++ addresses_of shelf.old.top texts.now) }
{
    let Some((text, others)) = texts.split_first() else {
        return Ok(());
    };
    let text = Bytes::copy(alloc, text.as_slice())?;
    let at = shelf.put_text(text)?;
    list.append(&at.to_le_bytes())?;
    put_all(alloc, shelf, list, others)
}

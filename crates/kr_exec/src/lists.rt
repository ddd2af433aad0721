//! The lists of texts that execve(2) reads: the arguments of a program, and its environment.
ghost use Rattle.std.specs.Prelude.{◌≡◌, ◌+◌, ◌<◌, ◌≤◌, ◌++◌, [], ◌∷◌, true, false, None, IfErr, IfOk, IfSome, OnOk, length};
ghost use Rattle.elf_read.specs.pr_base.Fields.{little_endian};
ghost use Rattle.kr_calls.specs.rv_mem.Actions.{carried_out};
ghost use Rattle.kr_calls.specs.rv_mem.Memory.{after_read};
ghost use Rattle.kr_calls.specs.rv_mem.Pages.{allows_all, bytes_from};
ghost use Rattle.kr_calls.specs.Expansion.{bytes_with_ends};
ghost use Rattle.kr_exec.specs.Exec.{are_too_big};
ghost use Rattle.kr_exec.specs.Lists.{address_at, text_at, text_within, list_at, lists_at, texts_from, most_texts, at_least_one, Reads, texts_read};

use elf_read::below::pr_base::limits::{MOST_BYTES, MOST_TEXTS};
use elf_read::below::pr_base::{Bytes, Errno, Texts};
use kr_calls::CallFault;
use kr_calls::below::rv_mem::{Space, TextFault, Use};
use std::alloc::Global;

/// How far the addresses of a list lie apart.
const ADDRESS_SIZE: u64 = 8;

/// The arguments of a program, and its environment.
#[derive(Drop)]
pub struct Lists {
    pub args: Texts,
    pub env: Texts,
}

/// A list that was read, and how many bytes may still come behind it.
#[derive(Drop)]
struct List {
    texts: Texts,
    room: usize,
}

/// Reads the lists at two addresses. The first test that fails counts: EFAULT where an address in a list isn't
/// readable, E2BIG where it would give one text more than there may be, the EFAULT or E2BIG of the text itself, and
/// E2BIG where both lists have too many bytes so far. A program without arguments is given an empty one.
pub fn read_lists<const M: u8>(
    alloc: Global,
    mem: &mut Space<M>,
    args: u64,
    env: u64,
) -> Result<Lists, CallFault>
    ensures read { Reads result (carried_out (lists_at args env) mem.old) mem.old mem.new }
    ensures fit { IfOk result (λ lists. are_too_big lists.args lists.env ≡ false) }
    ensures pages { mem.new.pages ≡ mem.old.pages }
{
    let args = read_list(alloc, mem, args, MOST_BYTES)?;
    let args = or_one_empty(alloc, args)?;
    let env = read_list(alloc, mem, env, args.room)?;
    Ok(Lists {
        args: args.texts,
        env: env.texts,
    })
}

/// A list of texts, or one empty text in place of none.
fn or_one_empty(alloc: Global, list: List) -> Result<List, CallFault>
    requires { 0 < list.room + bytes_with_ends list.texts }
    ensures texts { IfOk result (λ more. more.texts ≡ at_least_one list.texts) }
    ensures room { IfOk result (λ more. more.room + bytes_with_ends more.texts ≡ list.room + bytes_with_ends list.texts) }
    ensures few { length list.texts ≤ 4096 → IfOk result (λ more. length more.texts ≤ 4096) }
    ensures err { IfErr result (λ fault. fault ≡ CallFault.NoMemory) }
{
    if !list.texts.is_empty() {
        return Ok(list);
    }
    let mut texts = list.texts;
    add(&mut texts, Bytes::new(alloc))?;
    Ok(List {
        texts,
        room: list.room - 1,
    })
}

/// The list at an address, whose texts may have `room` bytes with their ends.
fn read_list<const M: u8>(
    alloc: Global,
    mem: &mut Space<M>,
    at: u64,
    room: usize,
) -> Result<List, CallFault>
    ensures read { Reads (texts_read result) (carried_out (list_at at room) mem.old) mem.old mem.new }
    ensures room { IfOk result (λ list. list.room + bytes_with_ends list.texts ≡ room) }
    ensures few { IfOk result (λ list. length list.texts ≤ 4096) }
    ensures pages { mem.new.pages ≡ mem.old.pages }
{
    if at == 0 {
        return Ok(List {
            texts: Texts::new(alloc),
            room,
        });
    }
    read_texts(alloc, mem, at, room)
}

/// Reads the texts of a list whose addresses begin at one.
fn read_texts<const M: u8>(
    alloc: Global,
    mem: &mut Space<M>,
    at: u64,
    room: usize,
) -> Result<List, CallFault>
    ensures read { Reads (texts_read result) (carried_out (texts_from most_texts at room) mem.old) mem.old mem.new }
    ensures room { IfOk result (λ list. list.room + bytes_with_ends list.texts ≡ room) }
    ensures few { IfOk result (λ list. length list.texts ≤ 4096) }
    ensures pages { mem.new.pages ≡ mem.old.pages }
{
    let mut texts = Texts::new(alloc);
    let mut room = room;
    let mut next = at;
    'addresses: loop {
        let address = read_address(mem, next)?;
        if address == 0 {
            return Ok(List { texts, room });
        }
        if texts.len() == MOST_TEXTS {
            return Err(CallFault::Err(Errno::E2BIG));
        }
        let text = read_text(mem, address, room)?;
        room -= text.len() + 1;
        add(&mut texts, text)?;
        next = next.wrapping_add(ADDRESS_SIZE);
    }
}

/// The address of a text: EFAULT where its bytes aren't readable.
fn read_address<const M: u8>(mem: &mut Space<M>, at: u64) -> Result<u64, Errno>
    ensures { carried_out (address_at at) mem.old ≡ record { reply = result; memory = mem.new } }
{
    match read_number(mem, at) {
        Some(address) => Ok(address),
        None => Err(Errno::EFAULT),
    }
}

/// The number in the eight bytes at an address, the lowest first, `None` where one of them isn't readable.
fn read_number<const M: u8>(mem: &mut Space<M>, at: u64) -> Option<u64>
    ensures some { IfSome result (λ n. (allows_all mem.old.pages at 8 Use.Read ≡ true) × (n ≡ little_endian (bytes_from mem.old.pages at 8)) × (mem.new ≡ after_read mem.old at 8)) }
    ensures none { result ≡ None → (allows_all mem.old.pages at 8 Use.Read ≡ false) × (mem.new ≡ mem.old) }
{
    let mut bytes = [0; 8];
    match mem.read(at, &mut bytes, Use::Read) {
        Ok(()) => Some(u64::from_le_bytes(bytes)),
        Err(_) => None,
    }
}

/// A text that has fewer bytes than `room`, which its end counts among.
fn read_text<const M: u8>(mem: &mut Space<M>, at: u64, room: usize) -> Result<Bytes, CallFault>
    ensures read { Reads result (carried_out (text_within room at) mem.old) mem.old mem.new }
    ensures within { IfOk result (λ text. length text < room) }
    ensures pages { mem.new.pages ≡ mem.old.pages }
{
    let text = text_at(mem, at)?;
    if text.len() < room {
        Ok(text)
    } else {
        Err(CallFault::Err(Errno::E2BIG))
    }
}

/// The text at an address, whatever has been read before it.
fn text_at<const M: u8>(mem: &mut Space<M>, at: u64) -> Result<Bytes, CallFault>
    ensures read { Reads result (carried_out (text_at at) mem.old) mem.old mem.new }
    ensures pages { mem.new.pages ≡ mem.old.pages }
{
    match mem.text_at(at, MOST_BYTES as u32) {
        Ok(text) => Ok(text),
        Err(TextFault::BadAddress) => Err(CallFault::Err(Errno::EFAULT)),
        Err(TextFault::TooLong) => Err(CallFault::Err(Errno::E2BIG)),
        Err(TextFault::NoMemory) => Err(CallFault::NoMemory),
    }
}

/// Adds a text at the end of a list.
fn add(texts: &mut Texts, text: Bytes) -> Result<(), CallFault>
    ensures ok { OnOk result (texts.new ≡ texts.old ++ text ∷ []) }
    ensures err { IfErr result (λ fault. fault ≡ CallFault.NoMemory) }
{
    Ok(texts.push(text)?)
}

//! Lists of texts in the memory of a stopped process.
ghost use Rattle.std.specs.Prelude.{◌≡◌, ◌+◌, ◌*◌, ◌<◌, ◌≤◌, [], IfOk, length};
ghost use Rattle.pt_ident.specs.kr_calls.Expansion.{bytes_with_ends};
ghost use Rattle.kr_exec.specs.Lists.{at_least_one, most_texts};
ghost use Rattle.pt_faker.specs.Stopping.{OnlyEdits};
ghost use Rattle.pt_faker.specs.Reading.{addresses_behind, list_at, lists_at, texts_from, texts_read, Reads};

use crate::Tracee;
use crate::text::{read_address, read_text_within};
use elf_load::below::pr_base::limits::{MOST_BYTES, MOST_TEXTS};
use elf_load::below::pr_base::{Bytes, Errno, NoMemory, Texts};
use pt_ident::below::kr_calls::CallFault;
use pt_ident::below::rv_mem::Use;
use std::alloc::Global;

/// How far the addresses of a list lie apart.
const ADDRESS_SIZE: u64 = 8;

/// What a caller of execve(2) hands over.
#[derive(Drop)]
pub struct Handed {
    /// The arguments of the program.
    pub args: Texts,
    /// The bytes of its environment, with an end for each text.
    pub env_bytes: u32,
}

/// A list that was read, and how many bytes may still come behind it.
#[derive(Drop)]
struct List {
    texts: Texts,
    room: usize,
}

/// Reads the lists at two addresses, the arguments before the environment. The first test that fails counts: EFAULT where an address
/// in a list can't be read, E2BIG where it would give one text more than there may be, the EFAULT or E2BIG of the text itself, and
/// E2BIG where both lists have too many bytes so far. A program without arguments is given an empty one. After want of memory the
/// process may only be dropped.
pub fn read_lists<T: Tracee>(
    alloc: Global,
    t: &mut T,
    args: u64,
    env: u64,
) -> Result<Handed, CallFault>
    ensures read { Reads result (lists_at args env) (T.stopped t.old) (T.stopped t.new) }
    ensures few { IfOk result (λ handed. length handed.args ≤ 4096) }
    ensures edits { OnlyEdits T.stopped T.around t.old t.new }
{
    // For the proof alone: the process lives.
    let _pid = t.pid();
    let args = match read_list(alloc, t, args, MOST_BYTES) {
        Ok(args) => args,
        Err(fault) => return Err(fault),
    };
    let Ok(args) = or_one_empty(alloc, args) else {
        return Err(CallFault::NoMemory);
    };
    match read_list(alloc, t, env, args.room) {
        Ok(env) => Ok(Handed {
            args: args.texts,
            env_bytes: (args.room - env.room) as u32,
        }),
        Err(fault) => Err(fault),
    }
}

/// A list of texts, or one empty text in place of none.
fn or_one_empty(alloc: Global, list: List) -> Result<List, NoMemory>
    requires { 0 < list.room + bytes_with_ends list.texts }
    ensures texts { IfOk result (λ more. more.texts ≡ at_least_one list.texts) }
    ensures room { IfOk result (λ more. more.room + bytes_with_ends more.texts ≡ list.room + bytes_with_ends list.texts) }
    ensures few { length list.texts ≤ 4096 → IfOk result (λ more. length more.texts ≤ 4096) }
{
    if !list.texts.is_empty() {
        return Ok(list);
    }
    let mut texts = list.texts;
    texts.push(Bytes::new(alloc))?;
    Ok(List {
        texts,
        room: list.room - 1,
    })
}

/// The list at an address, whose texts may have `room` bytes with their ends.
fn read_list<T: Tracee>(alloc: Global, t: &mut T, at: u64, room: usize) -> Result<List, CallFault>
    ensures read { Reads (texts_read result) (list_at at room) (T.stopped t.old) (T.stopped t.new) }
    ensures room { IfOk result (λ list. list.room + bytes_with_ends list.texts ≡ room) }
    ensures few { IfOk result (λ list. length list.texts ≤ 4096) }
    ensures edits { OnlyEdits T.stopped T.around t.old t.new }
{
    // For the proof alone: the process lives.
    let _pid = t.pid();
    if at == 0 {
        return Ok(List {
            texts: Texts::new(alloc),
            room,
        });
    }
    read_texts(alloc, t, at, room)
}

/// Reads the texts of a list whose addresses begin at one.
fn read_texts<T: Tracee>(alloc: Global, t: &mut T, at: u64, room: usize) -> Result<List, CallFault>
    ensures read { Reads (texts_read result) (texts_from most_texts at room []) (T.stopped t.old) (T.stopped t.new) }
    ensures room { IfOk result (λ list. list.room + bytes_with_ends list.texts ≡ room) }
    ensures few { IfOk result (λ list. length list.texts ≤ 4096) }
    ensures edits { OnlyEdits T.stopped T.around t.old t.new }
{
    // For the proof alone: the process lives.
    let _pid = t.pid();
    let mut texts = Texts::new(alloc);
    let mut room = room;
    let mut next = at;
    for _text in 0..MOST_TEXTS {
        let address = match read_address(t, next) {
            Ok(address) => address,
            Err(errno) => return Err(CallFault::Err(errno)),
        };
        if address == 0 {
            return Ok(List { texts, room });
        }
        let text = match read_text_within(alloc, t, address, room) {
            Ok(text) => text,
            Err(fault) => return Err(fault),
        };
        room -= text.len() + 1;
        match texts.push(text) {
            Ok(()) => {}
            Err(_) => return Err(CallFault::NoMemory),
        }
        next = next.wrapping_add(ADDRESS_SIZE);
    }
    end_of(t, next, texts, room)
}

/// A list of as many texts as there may be, if it ends behind them; E2BIG where it doesn't.
fn end_of<T: Tracee>(t: &mut T, at: u64, texts: Texts, room: usize) -> Result<List, CallFault>
    ensures read { Reads (texts_read result) (texts_from 0 at room texts) (T.stopped t.old) (T.stopped t.new) }
    ensures room { IfOk result (λ list. list ≡ record { texts = texts; room = room }) }
    ensures edits { OnlyEdits T.stopped T.around t.old t.new }
{
    // For the proof alone: the process lives.
    let _pid = t.pid();
    match read_address(t, at) {
        Ok(0) => Ok(List { texts, room }),
        Ok(_) => Err(CallFault::Err(Errno::E2BIG)),
        Err(errno) => Err(CallFault::Err(errno)),
    }
}

/// The addresses of `count` texts of a list, but for its first, eight bytes each, the lowest first: EFAULT where one of them can't be
/// read. After want of memory the process may only be dropped.
pub fn addresses_behind<T: Tracee>(
    alloc: Global,
    t: &mut T,
    at: u64,
    count: usize,
) -> Result<Bytes, CallFault>
    requires { count ≤ 4096 }
    ensures read { Reads result (addresses_behind at count) (T.stopped t.old) (T.stopped t.new) }
    ensures edits { OnlyEdits T.stopped T.around t.old t.new }
{
    // For the proof alone: the process lives.
    let _pid = t.pid();
    let Ok(mut bytes) = zeros(alloc, count) else {
        return Err(CallFault::NoMemory);
    };
    match t.peek(
        at.wrapping_add(ADDRESS_SIZE),
        bytes.as_mut_slice(),
        Use::Read,
    ) {
        Ok(()) => Ok(Bytes::from(bytes)),
        Err(_) => Err(CallFault::Err(Errno::EFAULT)),
    }
}

/// As many bytes as `count` addresses take.
fn zeros(alloc: Global, count: usize) -> Result<Vec<u8>, NoMemory>
    requires { count ≤ 4096 }
    ensures { IfOk result (λ bytes. length bytes.items ≡ 8 * count) }
{
    Ok(vec![in alloc; 0; 8 * count]?)
}

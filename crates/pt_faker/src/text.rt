//! Texts in the memory of a stopped process.
ghost use Rattle.std.specs.Prelude.{◌≡◌, ◌<◌, IfOk, length};
ghost use Rattle.kr_exec.specs.Lists.{address_at};
ghost use Rattle.pt_faker.specs.Stopping.{OnlyEdits};
ghost use Rattle.pt_faker.specs.Carrying.{CarriesOut};
ghost use Rattle.pt_faker.specs.Reading.{byte_at, text_at, text_within, Reads};

use crate::Tracee;
use elf_load::below::pr_base::limits::MOST_BYTES;
use elf_load::below::pr_base::{Bytes, Errno};
use pt_ident::below::kr_calls::CallFault;
use pt_ident::below::rv_mem::Use;
use std::alloc::Global;

/// The address of a text: EFAULT where one of its eight bytes can't be read.
pub(crate) fn read_address<T: Tracee>(t: &mut T, at: u64) -> Result<u64, Errno>
    ensures read { CarriesOut (address_at at) result (T.stopped t.old) (T.stopped t.new) }
    ensures edits { OnlyEdits T.stopped T.around t.old t.new }
{
    // For the proof alone: the process lives.
    let _pid = t.pid();
    let mut bytes = [0; 8];
    match t.peek(at, &mut bytes, Use::Read) {
        Ok(()) => Ok(u64::from_le_bytes(bytes)),
        Err(_) => Err(Errno::EFAULT),
    }
}

/// A byte of a text: EFAULT where it can't be read.
fn read_byte<T: Tracee>(t: &mut T, at: u64) -> Result<u8, Errno>
    ensures read { CarriesOut (byte_at at) result (T.stopped t.old) (T.stopped t.new) }
    ensures edits { OnlyEdits T.stopped T.around t.old t.new }
{
    // For the proof alone: the process lives.
    let _pid = t.pid();
    let mut bytes = [0; 1];
    match t.peek(at, &mut bytes, Use::Read) {
        Ok(()) => Ok(bytes[0]),
        Err(_) => Err(Errno::EFAULT),
    }
}

/// The text at an address: EFAULT at a byte that can't be read, and E2BIG where none of the first 131,072 is its end. After want of
/// memory the process may only be dropped.
fn read_text<T: Tracee>(alloc: Global, t: &mut T, at: u64) -> Result<Bytes, CallFault>
    ensures read { Reads result (text_at at) (T.stopped t.old) (T.stopped t.new) }
    ensures edits { OnlyEdits T.stopped T.around t.old t.new }
{
    // For the proof alone: the process lives.
    let _pid = t.pid();
    let mut text = Bytes::new(alloc);
    let mut next = at;
    for _byte in 0..MOST_BYTES {
        let byte = match read_byte(t, next) {
            Ok(byte) => byte,
            Err(errno) => return Err(CallFault::Err(errno)),
        };
        if byte == 0 {
            return Ok(text);
        }
        match text.append(&[byte]) {
            Ok(()) => {}
            Err(_) => return Err(CallFault::NoMemory),
        }
        next = next.wrapping_add(1);
    }
    Err(CallFault::Err(Errno::E2BIG))
}

/// A text that has fewer bytes than `room`, which its end counts among; E2BIG for a longer one.
pub(crate) fn read_text_within<T: Tracee>(
    alloc: Global,
    t: &mut T,
    at: u64,
    room: usize,
) -> Result<Bytes, CallFault>
    ensures read { Reads result (text_within room at) (T.stopped t.old) (T.stopped t.new) }
    ensures within { IfOk result (λ text. length text < room) }
    ensures edits { OnlyEdits T.stopped T.around t.old t.new }
{
    // For the proof alone: the process lives.
    let _pid = t.pid();
    match read_text(alloc, t, at) {
        Ok(text) if text.len() < room => Ok(text),
        Ok(_text) => Err(CallFault::Err(Errno::E2BIG)),
        Err(fault) => Err(fault),
    }
}

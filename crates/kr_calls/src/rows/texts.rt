//! The texts of a call.
ghost use Rattle.std.specs.Prelude.{◌≡◌, false};
ghost use Rattle.kr_calls.specs.Decodes.{Decodes, Finds, WantsForTexts, named_text};
ghost use Rattle.kr_calls.specs.Decoding.{text_read, texts_read};

use crate::fault::CallFault;
use rv_mem::below::pr_base::limits::PATH_MAX;
use rv_mem::below::pr_base::{Bytes, Errno};
use rv_mem::{Space, TextFault};

/// The most bytes of a path or text, its zero among them.
const TEXT_LIMIT: u32 = PATH_MAX as u32;

/// A path: EFAULT where it isn't readable, ENAMETOOLONG, then ENOENT where it is empty and may not be.
pub fn path<const M: u8>(
    mem: &mut Space<M>,
    at: u64,
    may_be_empty: bool,
) -> Result<Bytes, CallFault>
    ensures decoded { Decodes result (text_read may_be_empty at) mem.old mem.new }
    ensures pages { mem.new.pages ≡ mem.old.pages }
{
    match mem.text_at(at, TEXT_LIMIT) {
        Ok(text) => named(text, may_be_empty),
        Err(fault) => Err(CallFault::from(fault)),
    }
}

/// A text that was read: ENOENT where it is empty and may not be.
fn named(text: Bytes, may_be_empty: bool) -> Result<Bytes, CallFault>
    ensures { result ≡ named_text may_be_empty text }
{
    if text.is_empty() && !may_be_empty {
        return Err(CallFault::Err(Errno::ENOENT));
    }
    Ok(text)
}

/// Two texts of a call, each of which has to be there. Both are looked for before memory is taken, so that what
/// is read doesn't depend on memory.
pub fn two_texts<const M: u8>(
    mem: &mut Space<M>,
    first: u64,
    second: u64,
) -> Result<(Bytes, Bytes), CallFault>
    ensures decoded { Decodes result (texts_read first second) mem.old mem.new }
    ensures wanting { WantsForTexts result (texts_read first second) }
    ensures pages { mem.new.pages ≡ mem.old.pages }
{
    if let Err(errno) = find(mem, first) {
        return Err(CallFault::Err(errno));
    }
    if let Err(errno) = find(mem, second) {
        return Err(CallFault::Err(errno));
    }
    let one = match path(mem, first, false) {
        Ok(one) => one,
        Err(fault) => return Err(fault),
    };
    match path(mem, second, false) {
        Ok(two) => Ok((one, two)),
        Err(fault) => Err(fault),
    }
}

/// Looks for a text: EFAULT where it isn't readable, ENAMETOOLONG, then ENOENT where it is empty.
fn find<const M: u8>(mem: &mut Space<M>, at: u64) -> Result<(), Errno>
    ensures found { Finds result (text_read false at) mem.old mem.new }
    ensures pages { mem.new.pages ≡ mem.old.pages }
{
    match mem.text_size(at, TEXT_LIMIT) {
        Ok(0) => Err(Errno::ENOENT),
        Ok(_size) => Ok(()),
        Err(TextFault::BadAddress) => Err(Errno::EFAULT),
        Err(TextFault::TooLong) => Err(Errno::ENAMETOOLONG),
        Err(TextFault::NoMemory) => unreachable!(),
    }
}

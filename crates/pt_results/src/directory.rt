//! The answer of getcwd(2).
ghost use Rattle.std.specs.Prelude.{◌≡◌, ◌+◌, ◌≤◌, IfOk, length};
ghost use Rattle.pt_args.specs.pt_canon.Canon.{texts_by};
ghost use Rattle.pt_results.specs.Answers.{cwd_answer, text_answer};
ghost use Rattle.pt_args.specs.pt_canon.Leaving.{OnlyPeeks};

use pt_args::below::pt_bind::Tags;
use pt_args::below::pt_canon::Walker;
use pt_args::below::{Bytes, Errno, NoMemory, Peeks};
use pt_args::{Edit, Pokes, working_text};
use std::alloc::Global;

/// The answer of getcwd(2) in guest terms: the guest text of the working directory with its zero, and how many bytes that are.
/// ENOENT where there is no guest text, and ERANGE where `size` is too small for it. Whether the bytes at `buf` may be written
/// isn't asked here.
pub fn cwd_answer<K: Peeks>(
    alloc: Global,
    kernel: &mut K,
    walker: &Walker,
    tags: &Tags,
    pid: u32,
    size: u64,
    buf: u64,
) -> Result<Edit, NoMemory>
    ensures answer { IfOk result (λ edit. edit ≡ cwd_answer (texts_by walker.now.table (K.peeked kernel.old) tags.now) pid size buf) }
    ensures unmet { K.unmet kernel.new ≡ K.unmet kernel.old }
    ensures kernel { OnlyPeeks K.peeked K.kept kernel.old kernel.new }
{
    match working_text(kernel, walker.table(), tags, pid)? {
        Some(text) => text_answer(alloc, text, size, buf),
        None => Ok(Edit::Cancel(Errno::ENOENT)),
    }
}

/// A text with its zero, if that many bytes may be written.
fn text_answer(alloc: Global, text: Bytes, size: u64, buf: u64) -> Result<Edit, NoMemory>
    ensures { IfOk result (λ edit. edit ≡ text_answer text size buf) }
{
    let room = text.len() as u64 + 1;
    if size < room {
        return Ok(Edit::Cancel(Errno::ERANGE));
    }
    let mut bytes = text;
    bytes.append(b"\0")?;
    let mut pokes = Pokes::new(alloc);
    pokes.push(buf, bytes)?;
    Ok(Edit::Emulate {
        pokes,
        answer: room as i64,
    })
}

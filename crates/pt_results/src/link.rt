//! The answer of readlinkat(2) for a link of the process directory.
ghost use Rattle.std.specs.Prelude.{◌≡◌, ◌&&◌, false, IsTrue, IfOk, OnOk};
ghost use Rattle.pt_args.specs.pr_base.Paths.{is_absolute};
ghost use Rattle.pt_args.specs.pt_bind.Binding.{IsWritten, names_of};
ghost use Rattle.pt_args.specs.pt_canon.Canon.{texts_by};
ghost use Rattle.pt_results.specs.Answers.{jump_answer, lead_answer, link_answer, link_unmet, nowhere_answer, read_answer, read_unmet};
ghost use Rattle.pt_args.specs.pt_canon.Leaving.{OnlyPeeks};
ghost use Rattle.pt_args.specs.pt_canon.Remembering.{Agrees, WalksOn};

use crate::numbers::count_of;
use pt_args::below::kr_calls::{Request, path_of};
use pt_args::below::pt_bind::Tags;
use pt_args::below::pt_canon::{Canon, WalkErr, Walker};
use pt_args::below::{Bytes, Errno, NoMemory, PeekFault, PeekKind, Peeks, WalkMode, components};
use pt_args::{Caller, Edit, Pokes, parted};
use std::alloc::Global;

/// Where the bytes of a text are put, and how many at most.
#[derive(Clone, Copy)]
pub(crate) struct Room {
    buf: u64,
    count: u32,
}

/// The answer of readlinkat(2) in guest terms for a link of the process directory other than `self`: the first bytes of the guest
/// text to which it leads, and how many they are; ENOENT where its object has no guest text. `None` exactly where the path leads to no such
/// link, or to that of a pipe or of the console, of which the plain kernel tells its own text. Whether the bytes may be written isn't
/// asked here. What the walker remembers must agree with what the kernel tells; it may remember other answers then, also behind a refusal, and
/// agrees still.
pub fn link_answer<K: Peeks>(
    alloc: Global,
    kernel: &mut K,
    walker: &mut Walker,
    tags: &Tags,
    pid: u32,
    request: &Request,
) -> Result<Option<Edit>, NoMemory>
    requires agrees { Agrees walker.old (K.peeked kernel.old) }
    ensures answer { IfOk result (λ edit. edit ≡ link_answer (texts_by walker.old.table (K.peeked kernel.old) tags.now) pid request.now) }
    ensures walker { WalksOn (K.peeked kernel.old) walker.old walker.new }
    ensures noted { OnOk result (K.unmet kernel.new ≡ link_unmet (texts_by walker.old.table (K.peeked kernel.old) tags.now) pid request.now (K.unmet kernel.old)) }
    ensures kernel { OnlyPeeks K.peeked K.kept kernel.old kernel.new }
{
    let Request::Readlinkat { buf, size, .. } = request else {
        return Ok(None);
    };
    let Some(path) = path_of(request, 0) else {
        return Ok(None);
    };
    let caller = Caller { alloc, tags, pid };
    match caller.walk_path(kernel, walker, false, path) {
        Ok(Some(reached)) => {
            let room = Room {
                buf: *buf,
                count: count_of(*size),
            };
            let reader = Reader { alloc, tags, room };
            reader.read_answer(kernel, walker, &reached.canon)
        }
        Ok(None) | Err(WalkErr::Err(_)) => Ok(None),
        Err(WalkErr::NoMemory) => Err(NoMemory),
    }
}

/// What readlinkat(2) is answered by: the tags of all processes, and where the bytes are put.
#[derive(Clone, Copy)]
struct Reader<'a> {
    alloc: Global,
    tags: &'a Tags,
    room: Room,
}

impl<'a> Reader<'a> {
    /// The answer by where the path leads.
    fn read_answer<K: Peeks>(
        &self,
        kernel: &mut K,
        walker: &mut Walker,
        canon: &Canon,
    ) -> Result<Option<Edit>, NoMemory>
        requires guest { IsWritten canon.now.guest }
        requires host { IsTrue (is_absolute canon.now.host) }
        requires agrees { Agrees walker.old (K.peeked kernel.old) }
        ensures answer { let texts = texts_by walker.old.table (K.peeked kernel.old) self.now.tags.now in
            IfOk result (λ edit. edit ≡ read_answer texts canon.now self.now.room) }
        ensures walker { WalksOn (K.peeked kernel.old) walker.old walker.new }
        ensures noted { let texts = texts_by walker.old.table (K.peeked kernel.old) self.now.tags.now in
            OnOk result (K.unmet kernel.new ≡ read_unmet texts canon.now (K.unmet kernel.old)) }
        ensures kernel { OnlyPeeks K.peeked K.kept kernel.old kernel.new }
    {
        match kernel.kind(canon.host.as_slice()) {
            Ok(PeekKind::Jump) => self.jump_answer(kernel, walker, canon),
            Ok(PeekKind::Dir | PeekKind::File | PeekKind::Link) | Err(PeekFault::Err(_)) => Ok(
                None,
            ),
            Err(PeekFault::NoMemory) => Err(NoMemory),
        }
    }

    /// The answer for a link of the process directory, by where it leads from its directory.
    fn jump_answer<K: Peeks>(
        &self,
        kernel: &mut K,
        walker: &mut Walker,
        canon: &Canon,
    ) -> Result<Option<Edit>, NoMemory>
        requires guest { IsWritten canon.now.guest }
        requires host { IsTrue (is_absolute canon.now.host) }
        requires agrees { Agrees walker.old (K.peeked kernel.old) }
        ensures answer { let texts = texts_by walker.old.table (K.peeked kernel.old) self.now.tags.now in
            IfOk result (λ edit. edit ≡ jump_answer texts canon.now self.now.room (names_of canon.now.guest)) }
        ensures walker { WalksOn (K.peeked kernel.old) walker.old walker.new }
        ensures noted { K.unmet kernel.old ≡ false → OnOk result (K.unmet kernel.new ≡ false) }
        ensures kernel { OnlyPeeks K.peeked K.kept kernel.old kernel.new }
    {
        let Some((dir, name)) = parted(canon.guest.as_slice()) else {
            return Ok(None);
        };
        match walker.canon(kernel, self.tags, dir, name, WalkMode::Look) {
            Ok(led) => {
                let edit = lead_answer(self.alloc, led.guest.as_slice(), self.room)?;
                Ok(Some(edit))
            }
            Err(WalkErr::Err(_)) => nowhere_answer(kernel, canon.host.as_slice()),
            Err(WalkErr::NoMemory) => Err(NoMemory),
        }
    }
}

/// The first bytes of a text.
fn lead_answer(alloc: Global, text: &[u8], room: Room) -> Result<Edit, NoMemory>
    ensures { IfOk result (λ edit. edit ≡ lead_answer text.now room) }
{
    let count = text.len().min(room.count as usize);
    let bytes = Bytes::copy(alloc, &text[..count])?;
    let mut pokes = Pokes::new(alloc);
    pokes.push(room.buf, bytes)?;
    Ok(Edit::Emulate {
        pokes,
        answer: count as i64,
    })
}

/// The answer for a link that leads to no guest text: ENOENT, but of a pipe and of the console the plain kernel tells texts of its own,
/// which are no paths.
fn nowhere_answer<K: Peeks>(kernel: &mut K, host: &[u8]) -> Result<Option<Edit>, NoMemory>
    requires { IsTrue (is_absolute host.now) }
    ensures answer { IfOk result (λ edit. edit ≡ nowhere_answer ((K.peeked kernel.old).link_text host.now)) }
    ensures noted { OnOk result (K.unmet kernel.new ≡ (K.unmet kernel.old && (K.peeked kernel.old).steady host.now)) }
    ensures kernel { OnlyPeeks K.peeked K.kept kernel.old kernel.new }
{
    match kernel.link_text(host) {
        Ok(text) => {
            if components(text.as_slice()).absolute() {
                Ok(Some(Edit::Cancel(Errno::ENOENT)))
            } else {
                Ok(None)
            }
        }
        Err(PeekFault::Err(_)) => Ok(Some(Edit::Cancel(Errno::ENOENT))),
        Err(PeekFault::NoMemory) => Err(NoMemory),
    }
}

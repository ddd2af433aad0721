//! Programs as a tracer finds them.
ghost use Rattle.std.specs.Prelude.{◌≡◌, ◌≤◌, ◌&&◌, take, length, IsTrue, IfOk, IfSome};
ghost use Rattle.std.specs.Option.{option_copied};
ghost use Rattle.pt_args.specs.pr_base.Paths.{is_absolute};
ghost use Rattle.pt_args.specs.pt_bind.Binding.{IsWritten, names_of};
ghost use Rattle.pt_args.specs.pt_canon.Canon.{IsAnswer, IsWalkNoted, canon_of, texts_by};
ghost use Rattle.pt_args.specs.kr_calls.Expansion.{is_script};
ghost use Rattle.pt_args.specs.kr_calls.Scripts.{BeginsScript};
ghost use Rattle.pt_script.specs.Programs.{base_from, canon_from, canon_unmet, program_from, program_in, program_unmet};
ghost use Rattle.pt_args.specs.pt_canon.Leaving.{OnlyPeeks};
ghost use Rattle.pt_args.specs.pt_canon.Remembering.{Agrees, WalksOn};

use crate::finder::Finder;
use pt_args::below::pt_canon::laws::answers_are_of_their_texts;
use pt_args::below::pt_canon::{Canon, WalkErr, Walker};
use pt_args::below::{Bytes, Errno, Peeks, WalkMode, components};
use std::alloc::Global;

/// How many bytes of a file tell a script's line.
const HEAD_SIZE: u32 = 256;

/// What a script begins with.
const SCRIPT_MARK: &[u8] = b"#!";

/// A regular file that the user may execute.
#[derive(Drop)]
pub struct Program {
    /// Its host text.
    pub host: Bytes,
    /// The index of the binding to which its guest text belongs.
    pub index: u32,
    /// As many of its first bytes as tell a script's line.
    pub head: Bytes,
}

impl<'t, 'w> Finder<'t, 'w> {
    /// The program at a guest path, a last link followed: ENOENT where the path is relative and there is no working directory
    /// with a guest text, then the errors of the walk, and EACCES where it leads to no regular file that the user may execute.
    pub fn program_from<K: Peeks>(
        &self,
        kernel: &mut K,
        walker: &mut Walker,
        path: &[u8],
    ) -> Result<Program, WalkErr>
        requires working { IfSome (option_copied self.now.working) IsWritten }
        requires agrees { Agrees walker.old (K.peeked kernel.old) }
        ensures answer { let texts = texts_by walker.old.table (K.peeked kernel.old) self.now.tags.now in
            IsAnswer (program_from texts (option_copied self.now.working) path.now) result }
        ensures short { IfOk result (λ program. length program.head ≤ 256) }
        ensures walker { WalksOn (K.peeked kernel.old) walker.old walker.new }
        ensures noted { let texts = texts_by walker.old.table (K.peeked kernel.old) self.now.tags.now in
            IsWalkNoted (program_unmet texts (option_copied self.now.working) path.now (K.unmet kernel.old)) (K.unmet kernel.new) result }
        ensures kernel { OnlyPeeks K.peeked K.kept kernel.old kernel.new }
    {
        let base = base_from(self.alloc, self.working, path)?;
        let Canon { host, index, .. } = self.canon_from(kernel, walker, path, base.as_slice())?;
        program_in(kernel, host, index)
    }

    /// Where a path leads from a guest text.
    fn canon_from<K: Peeks>(
        &self,
        kernel: &mut K,
        walker: &mut Walker,
        path: &[u8],
        base: &[u8],
    ) -> Result<Canon, WalkErr>
        requires base { IsWritten base.now }
        requires agrees { Agrees walker.old (K.peeked kernel.old) }
        ensures answer { let texts = texts_by walker.old.table (K.peeked kernel.old) self.now.tags.now in
            IsAnswer (canon_from texts path.now base.now) result }
        ensures host { IfOk result (λ canon. IsTrue (is_absolute canon.host)) }
        ensures walker { WalksOn (K.peeked kernel.old) walker.old walker.new }
        ensures noted { let texts = texts_by walker.old.table (K.peeked kernel.old) self.now.tags.now in
            IsWalkNoted (canon_unmet texts path.now base.now (K.unmet kernel.old)) (K.unmet kernel.new) result }
        ensures kernel { OnlyPeeks K.peeked K.kept kernel.old kernel.new }
    {
        answers_are_of_their_texts();
        let canon = walker.canon(kernel, self.tags, base, path, WalkMode::Look)?;
        Ok(canon)
    }
}

/// The guest text from which a path is taken: the root, or the working directory.
fn base_from(alloc: Global, working: Option<&[u8]>, path: &[u8]) -> Result<Bytes, WalkErr>
    requires { IfSome (option_copied working) IsWritten }
    ensures answer { IsAnswer (base_from (option_copied working.entry) path.now) result }
    ensures written { IfOk result IsWritten }
{
    if components(path).absolute() {
        let root = Bytes::copy(alloc, b"/")?;
        return Ok(root);
    }
    match working {
        Some(text) => {
            let text = Bytes::copy(alloc, text)?;
            Ok(text)
        }
        None => Err(WalkErr::Err(Errno::ENOENT)),
    }
}

/// The program that stands at a host text, which belongs to the binding of this index.
pub(crate) fn program_in<K: Peeks>(
    kernel: &mut K,
    host: Bytes,
    index: u32,
) -> Result<Program, WalkErr>
    requires { IsTrue (is_absolute host) }
    ensures answer { IsAnswer (program_in (K.peeked kernel.old) host index) result }
    ensures short { IfOk result (λ program. length program.head ≤ 256) }
    ensures noted { IsWalkNoted (K.unmet kernel.old && (K.peeked kernel.old).steady host) (K.unmet kernel.new) result }
    ensures kernel { OnlyPeeks K.peeked K.kept kernel.old kernel.new }
{
    let head = kernel.head(host.as_slice(), HEAD_SIZE)?;
    let head = cut(head);
    Ok(Program { host, index, head })
}

/// No more bytes than tell a script's line.
fn cut(bytes: Bytes) -> Bytes
    ensures first { result ≡ take 256 bytes }
    ensures short { length result ≤ 256 }
{
    let mut bytes = bytes.into_vec();
    bytes.truncate(HEAD_SIZE as usize);
    Bytes::from(bytes)
}

/// Whether a file that begins so is a script.
pub(crate) fn is_script(head: &[u8]) -> bool
    ensures test { result ≡ is_script head.now }
    ensures begins { IsTrue result → BeginsScript head.now }
{
    head.starts_with(SCRIPT_MARK)
}

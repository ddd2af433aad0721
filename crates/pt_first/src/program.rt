//! The program that runs in the end.
ghost use Rattle.std.specs.Prelude.{◌≡◌, ◌≤◌, ◌<◌, length, false, true, IfOk, MatchOption};
ghost use Rattle.kr_first.specs.pt_bind.Binding.{IsWritten};
ghost use Rattle.pt_script.specs.pt_canon.Canon.{IsAnswer, IsWalkNoted, texts_by};
ghost use Rattle.pt_script.specs.kr_calls.Expansion.{bytes_with_ends};
ghost use Rattle.kr_first.specs.kr_exec.Exec.{are_too_big};
ghost use Rattle.kr_first.specs.Starting.{path_errno};
ghost use Rattle.pt_first.specs.GuestStart.{base_of, handed, handed_unmet, if_short, run_from, run_unmet, run_with, unmet_with_lists};
ghost use Rattle.pt_script.specs.pt_canon.Leaving.{OnlyPeeks};
ghost use Rattle.pt_script.specs.pt_canon.Remembering.{Agrees, WalksOn};

use crate::directory::{ROOT, canon_from};
use crate::launcher::Launcher;
use pr_words::below::{
    Bytes, Errno, MOST_BYTES, MOST_TEXTS, PATH_MAX, Peeks, Texts, components, is_walked,
};
use pt_script::below::{Canon, WalkErr, Walker};
use pt_script::{Expanded, Finder, bytes_within, is_too_big};

/// How many bytes a path has at most.
const MOST_BYTES_OF_PATHS: usize = PATH_MAX - 1;

/// Why a path isn't walked: ENOENT of an empty one, and ENAMETOOLONG of another.
fn path_errno(path: &[u8]) -> Errno
    ensures { result ≡ path_errno path.now }
{
    if path.is_empty() {
        Errno::ENOENT
    } else {
        Errno::ENAMETOOLONG
    }
}

/// The guest text from which a path is taken.
fn base_of<'a>(working: &'a [u8], path: &[u8]) -> &'a [u8]
    requires { IsWritten working.now }
    ensures base { result.now ≡ base_of working.now path.now }
    ensures written { IsWritten result.now }
{
    if components(path).absolute() {
        ROOT
    } else {
        working
    }
}

/// How many bytes an environment has with its ends; `None` exactly where it and the arguments are more than a program may be given.
fn env_bytes(args: &Texts, env: &Texts) -> Option<u32>
    ensures { MatchOption result (are_too_big args.now env.now ≡ true) (λ n. (n ≡ bytes_with_ends env.now) × (are_too_big args.now env.now ≡ false)) }
{
    if env.len() > MOST_TEXTS {
        return None;
    }
    let bytes = bytes_within(env, MOST_BYTES)? as u32;
    if is_too_big(args, bytes) {
        None
    } else {
        Some(bytes)
    }
}

impl<'a> Launcher<'a> {
    /// The program that runs in the end for a path, with its arguments. The errors come in this order: ENOENT of an empty path and
    /// ENAMETOOLONG of one with more than 4,095 bytes, those of its walk, ENAMETOOLONG of a host text that is longer, EACCES where no
    /// file stands there that the user may execute, E2BIG of the lists, and those of scripts.
    pub(crate) fn run_from<K: Peeks>(
        &self,
        kernel: &mut K,
        walker: &mut Walker,
        args: Texts,
        env: &Texts,
        path: &[u8],
    ) -> Result<Expanded, WalkErr>
        requires working { IsWritten self.now.working.now }
        requires agrees { Agrees walker.old (K.peeked kernel.old) }
        ensures answer { let texts = texts_by walker.old.table (K.peeked kernel.old) self.now.tags.now in
            IsAnswer (run_from texts self.now.working.now args env.now path.now) result }
        ensures walker { WalksOn (K.peeked kernel.old) walker.old walker.new }
        ensures noted { let texts = texts_by walker.old.table (K.peeked kernel.old) self.now.tags.now in
            IsWalkNoted (run_unmet texts self.now.working.now args env.now path.now (K.unmet kernel.old)) (K.unmet kernel.new) result }
        ensures kernel { OnlyPeeks K.peeked K.kept kernel.old kernel.new }
    {
        if !is_walked(path) {
            return Err(WalkErr::Err(path_errno(path)));
        }
        let _canon = self.handed(kernel, walker, path)?;
        self.run_with(kernel, walker, args, env, path)
    }

    /// Where a path leads, if its host text isn't longer than a path may be.
    fn handed<K: Peeks>(
        &self,
        kernel: &mut K,
        walker: &mut Walker,
        path: &[u8],
    ) -> Result<Canon, WalkErr>
        requires working { IsWritten self.now.working.now }
        requires agrees { Agrees walker.old (K.peeked kernel.old) }
        ensures answer { let texts = texts_by walker.old.table (K.peeked kernel.old) self.now.tags.now in
            IsAnswer (handed texts self.now.working.now path.now) result }
        ensures walker { WalksOn (K.peeked kernel.old) walker.old walker.new }
        ensures noted { let texts = texts_by walker.old.table (K.peeked kernel.old) self.now.tags.now in
            IsWalkNoted (handed_unmet texts self.now.working.now path.now (K.unmet kernel.old)) (K.unmet kernel.new) result }
        ensures kernel { OnlyPeeks K.peeked K.kept kernel.old kernel.new }
    {
        let base = base_of(self.working, path);
        let canon = canon_from(kernel, walker, self.tags, path, base)?;
        if canon.host.len() > MOST_BYTES_OF_PATHS {
            return Err(WalkErr::Err(Errno::ENAMETOOLONG));
        }
        Ok(canon)
    }

    /// The program that runs in the end for a path that is walked, with its arguments.
    fn run_with<K: Peeks>(
        &self,
        kernel: &mut K,
        walker: &mut Walker,
        args: Texts,
        env: &Texts,
        path: &[u8],
    ) -> Result<Expanded, WalkErr>
        requires working { IsWritten self.now.working.now }
        requires agrees { Agrees walker.old (K.peeked kernel.old) }
        ensures answer { let texts = texts_by walker.old.table (K.peeked kernel.old) self.now.tags.now in
            IsAnswer (run_with texts self.now.working.now args env.now path.now) result }
        ensures walker { WalksOn (K.peeked kernel.old) walker.old walker.new }
        ensures noted { let texts = texts_by walker.old.table (K.peeked kernel.old) self.now.tags.now in
            IsWalkNoted (unmet_with_lists texts self.now.working.now args env.now path.now (K.unmet kernel.old)) (K.unmet kernel.new) result }
        ensures kernel { OnlyPeeks K.peeked K.kept kernel.old kernel.new }
    {
        let working = Some(self.working);
        let finder = Finder {
            alloc: self.alloc,
            tags: self.tags,
            working,
        };
        match env_bytes(&args, env) {
            Some(env_bytes) => finder.expand_from(kernel, walker, path, args, env_bytes),
            None => {
                let _program = finder.program_from(kernel, walker, path)?;
                Err(WalkErr::Err(Errno::E2BIG))
            }
        }
    }
}

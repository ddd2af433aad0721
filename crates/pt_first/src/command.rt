//! The command, searched in the directories of PATH where its word has no slash.
ghost use Rattle.std.specs.Prelude.{◌≡◌, IfOk, OnOk, map};
ghost use Rattle.kr_first.specs.pt_bind.Binding.{IsWritten};
ghost use Rattle.pt_script.specs.pt_canon.Canon.{texts_by};
ghost use Rattle.pt_first.specs.GuestStart.{chosen, chosen_unmet, is_there, searched, searched_unmet, there_unmet};
ghost use Rattle.pt_script.specs.pt_canon.Leaving.{OnlyPeeks};
ghost use Rattle.pt_script.specs.pt_canon.Remembering.{Agrees, WalksOn};

use crate::launcher::Launcher;
use pr_words::below::{Bytes, NoMemory, Peeks, Texts, is_walked};
use pr_words::{candidate, directories, has_slash, path_of};
use pt_script::Finder;
use pt_script::below::{WalkErr, Walker};

impl<'a> Launcher<'a> {
    /// Whether a path leads from the working directory to a program that the user may execute.
    fn is_there<K: Peeks>(
        &self,
        kernel: &mut K,
        walker: &mut Walker,
        path: &[u8],
    ) -> Result<bool, NoMemory>
        requires working { IsWritten self.now.working.now }
        requires agrees { Agrees walker.old (K.peeked kernel.old) }
        ensures there { let texts = texts_by walker.old.table (K.peeked kernel.old) self.now.tags.now in
            IfOk result (λ there. there ≡ is_there texts self.now.working.now path.now) }
        ensures walker { WalksOn (K.peeked kernel.old) walker.old walker.new }
        ensures noted { let texts = texts_by walker.old.table (K.peeked kernel.old) self.now.tags.now in
            OnOk result (K.unmet kernel.new ≡ there_unmet texts self.now.working.now path.now (K.unmet kernel.old)) }
        ensures kernel { OnlyPeeks K.peeked K.kept kernel.old kernel.new }
    {
        if !is_walked(path) {
            return Ok(false);
        }
        let working = Some(self.working);
        let finder = Finder {
            alloc: self.alloc,
            tags: self.tags,
            working,
        };
        match finder.program_from(kernel, walker, path) {
            Ok(_program) => Ok(true),
            Err(WalkErr::Err(_)) => Ok(false),
            Err(WalkErr::NoMemory) => Err(NoMemory),
        }
    }

    /// The first candidate in some directories that is a program.
    #[tactic(auto, unfolding(crate::specs::GuestStart::searched, crate::specs::GuestStart::searched_unmet))]
    fn search<K: Peeks>(
        &self,
        kernel: &mut K,
        walker: &mut Walker,
        word: &[u8],
        dirs: &[&[u8]],
    ) -> Result<Option<Bytes>, NoMemory>
        requires working { IsWritten self.now.working.now }
        requires agrees { Agrees walker.old (K.peeked kernel.old) }
        ensures path { let texts = texts_by walker.old.table (K.peeked kernel.old) self.now.tags.now in
            IfOk result (λ path. path ≡ searched texts self.now.working.now word.now (map (λ dir. dir.now) dirs.now)) }
        ensures walker { WalksOn (K.peeked kernel.old) walker.old walker.new }
        ensures noted { let texts = texts_by walker.old.table (K.peeked kernel.old) self.now.tags.now in
            OnOk result (K.unmet kernel.new ≡ searched_unmet texts self.now.working.now word.now (map (λ dir. dir.now) dirs.now) (K.unmet kernel.old)) }
        ensures kernel { OnlyPeeks K.peeked K.kept kernel.old kernel.new }
    {
        let Some((dir, others)) = dirs.split_first() else {
            return Ok(None);
        };
        let path = candidate(self.alloc, dir, word)?;
        if self.is_there(kernel, walker, path.as_slice())? {
            return Ok(Some(path));
        }
        self.search(kernel, walker, word, others)
    }

    /// The path of the program: the word as it is where it has a slash, and else the first candidate that is a program.
    pub(crate) fn choose<K: Peeks>(
        &self,
        kernel: &mut K,
        walker: &mut Walker,
        env: &Texts,
        word: &[u8],
    ) -> Result<Option<Bytes>, NoMemory>
        requires working { IsWritten self.now.working.now }
        requires agrees { Agrees walker.old (K.peeked kernel.old) }
        ensures path { let texts = texts_by walker.old.table (K.peeked kernel.old) self.now.tags.now in
            IfOk result (λ path. path ≡ chosen texts self.now.working.now env.now word.now) }
        ensures walker { WalksOn (K.peeked kernel.old) walker.old walker.new }
        ensures noted { let texts = texts_by walker.old.table (K.peeked kernel.old) self.now.tags.now in
            OnOk result (K.unmet kernel.new ≡ chosen_unmet texts self.now.working.now env.now word.now (K.unmet kernel.old)) }
        ensures kernel { OnlyPeeks K.peeked K.kept kernel.old kernel.new }
    {
        if has_slash(word) {
            return Ok(Some(Bytes::copy(self.alloc, word)?));
        }
        let dirs = directories(self.alloc, path_of(env))?;
        self.search(kernel, walker, word, dirs.as_slice())
    }
}

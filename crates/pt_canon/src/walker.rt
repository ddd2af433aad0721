//! A tracer's walks, and what it remembers of the last ones.
ghost use Rattle.std.specs.Prelude.{◌≡◌, ◌≢◌, ◌+◌, ◌-◌, ◌^◌, ◌<◌, ◌==◌, ◌&&◌, [], None, length, IfOk, IfSome};
ghost use Rattle.std.specs.Map.{lookup};
ghost use Rattle.pt_bind.specs.Binding.{IsWritten, names_of};
ghost use Rattle.pt_canon.specs.Canon.{IsAnswer, IsWalkNoted, canon_of, texts_by};
ghost use Rattle.pt_canon.specs.Leaving.{OnlyPeeks};
ghost use Rattle.pt_canon.specs.Remembering.{Agrees, WalksOn, after_walk, is_steady_key, key_of, same_key};
ghost use Rattle.pt_canon.specs.Walked.{answer_of, noted, recalled};

use crate::answers::Answers;
use crate::canon::{Canon, WalkErr};
use crate::key::Key;
use crate::translation::Translation;
use pt_bind::below::pr_base::{NoMemory, Peeks, WalkMode};
use pt_bind::{Table, Tags};
use std::alloc::Global;
use std::marker::Model;

/// A tracer's walks over guest texts, by its table of bindings. It remembers the answers of the last ones, as long as
/// nothing can change on which they rest: before that it has to be paused.
#[derive(Drop)]
pub struct Walker {
    table: Table,
    answers: Answers,
    pauses: u64,
    alloc: Global,
}

impl Model for Walker {
    ghost use Rattle.std.specs.Prelude.{◌≡◌, ◌≢◌, []};
    ghost use Rattle.pt_canon.specs.Remembering.{Walking};

    ghost Value = { Walking };

    ghost view = { λ w. record { table = w.table; pauses = w.pauses; remembered = w.answers } };

    ghost invariant = { λ w. w.pauses ≢ 0 → w.answers ≡ [] };
}

/// What a walk answers, and whether it is steady, if that was asked.
#[derive(Drop)]
pub(crate) struct Walked {
    pub(crate) canon: Canon,
    pub(crate) steady: bool,
}

impl Walker {
    /// It remembers nothing, and no pause stands.
    pub fn new(alloc: Global, table: Table) -> Result<Walker, NoMemory>
        ensures { IfOk result (λ walker. walker ≡ record { table = table; pauses = 0; remembered = [] }) }
    {
        let answers = Answers::new(alloc)?;
        Ok(Walker {
            table,
            answers,
            pauses: 0,
            alloc,
        })
    }

    /// The table of bindings.
    pub fn table(&self) -> &Table
        ensures { result.now ≡ self.now.table }
    {
        &self.table
    }

    /// How many answers are remembered.
    pub fn remembered(&self) -> usize
        ensures count { result ≡ length self.now.remembered }
        ensures paused { self.now.pauses ≢ 0 → result ≡ 0 }
    {
        self.answers.len()
    }

    /// Forgets all answers, and remembers none until this pause and each other one ended. It takes no memory.
    pub fn pause(&mut self)
        requires { self.old.pauses < 2 ^ 63 }
        ensures { self.new ≡ record { table = self.old.table; pauses = self.old.pauses + 1; remembered = [] } }
    {
        self.answers.clear();
        self.pauses += 1;
    }

    /// Ends a pause. It takes no memory.
    pub fn resume(&mut self)
        requires { self.old.pauses ≢ 0 }
        ensures { self.new ≡ record { table = self.old.table; pauses = self.old.pauses - 1; remembered = [] } }
    {
        self.pauses -= 1;
    }

    /// Where a path leads in the guest, from the guest text of a directory: the walk of path_resolution(7) over guest
    /// texts, each component of which is looked at under its host text, as the kernel tells it. It fails where that
    /// walk does. An answer that is remembered is given in place of a walk; one that isn't is remembered, if no pause
    /// stands and each host path at which the walk looked is steady. Memory for that is taken first.
    pub fn canon<K: Peeks>(
        &mut self,
        kernel: &mut K,
        tags: &Tags,
        base: &[u8],
        path: &[u8],
        mode: WalkMode,
    ) -> Result<Canon, WalkErr>
        requires base { IsWritten base.now }
        requires agrees { Agrees self.old (K.peeked kernel.old) }
        ensures answer { IsAnswer (canon_of (texts_by self.old.table (K.peeked kernel.old) tags.now) mode (names_of base.now) path.now) result }
        ensures written { IfOk result (λ canon. IsWritten canon.guest) }
        ensures remembered { let key = key_of base.now path.now mode in
            self.new ≡ after_walk self.old (is_steady_key (texts_by self.old.table (K.peeked kernel.old) tags.now) key) key result }
        ensures walker { WalksOn (K.peeked kernel.old) self.old self.new }
        ensures noted { let key = key_of base.now path.now mode in
            IsWalkNoted (K.unmet kernel.old && is_steady_key (texts_by self.old.table (K.peeked kernel.old) tags.now) key) (K.unmet kernel.new) result }
        ensures kernel { OnlyPeeks K.peeked K.kept kernel.old kernel.new }
    {
        self.answer(kernel, tags, base, path, mode)
    }

    /// The same: an answer that is remembered, or that of a walk.
    fn answer<K: Peeks>(
        &mut self,
        kernel: &mut K,
        tags: &Tags,
        base: &[u8],
        path: &[u8],
        mode: WalkMode,
    ) -> Result<Canon, WalkErr>
        requires base { IsWritten base.now }
        requires agrees { Agrees self.old (K.peeked kernel.old) }
        ensures answer { IsAnswer (canon_of (texts_by self.old.table (K.peeked kernel.old) tags.now) mode (names_of base.now) path.now) result }
        ensures written { IfOk result (λ canon. IsWritten canon.guest) }
        ensures remembered { let key = key_of base.now path.now mode in
            self.new ≡ after_walk self.old (is_steady_key (texts_by self.old.table (K.peeked kernel.old) tags.now) key) key result }
        ensures noted { let key = key_of base.now path.now mode in
            IsWalkNoted (K.unmet kernel.old && is_steady_key (texts_by self.old.table (K.peeked kernel.old) tags.now) key) (K.unmet kernel.new) result }
        ensures kernel { OnlyPeeks K.peeked K.kept kernel.old kernel.new }
    {
        if self.pauses != 0 {
            let Walked { canon, steady: _ } = self.walked(kernel, tags, base, path, mode, false)?;
            return Ok(canon);
        }
        self.unpaused_answer(kernel, tags, base, path, mode)
    }

    /// The same while no pause stands.
    fn unpaused_answer<K: Peeks>(
        &mut self,
        kernel: &mut K,
        tags: &Tags,
        base: &[u8],
        path: &[u8],
        mode: WalkMode,
    ) -> Result<Canon, WalkErr>
        requires base { IsWritten base.now }
        requires running { self.old.pauses ≡ 0 }
        requires agrees { Agrees self.old (K.peeked kernel.old) }
        ensures answer { IsAnswer (canon_of (texts_by self.old.table (K.peeked kernel.old) tags.now) mode (names_of base.now) path.now) result }
        ensures written { IfOk result (λ canon. IsWritten canon.guest) }
        ensures remembered { let key = key_of base.now path.now mode in
            self.new ≡ after_walk self.old (is_steady_key (texts_by self.old.table (K.peeked kernel.old) tags.now) key) key result }
        ensures noted { let key = key_of base.now path.now mode in
            IsWalkNoted (K.unmet kernel.old && is_steady_key (texts_by self.old.table (K.peeked kernel.old) tags.now) key) (K.unmet kernel.new) result }
        ensures kernel { OnlyPeeks K.peeked K.kept kernel.old kernel.new }
    {
        let key = Key::of(self.alloc, base, path, mode)?;
        let found = self.recalled(&key)?;
        match found {
            Some(canon) => Ok(canon),
            None => {
                let walked = self.walked(kernel, tags, base, path, mode, true)?;
                Ok(self.note(key, walked)?)
            }
        }
    }

    /// The answer that is remembered for a key, which becomes the newest.
    fn recalled(&mut self, key: &Key) -> Result<Option<Canon>, NoMemory>
        requires { self.old.pauses ≡ 0 }
        ensures answer { IfOk result (λ found. found ≡ lookup (same_key key.now) self.old.remembered) }
        ensures written { IfOk result (λ found. IfSome found (λ canon. IsWritten canon.guest)) }
        ensures newest { self.new ≡ recalled self.old key.now result }
    {
        self.answers.recall(self.alloc, key)
    }

    /// The answer of a walk, and whether it is steady, if it is asked.
    fn walked<K: Peeks>(
        &self,
        kernel: &mut K,
        tags: &Tags,
        base: &[u8],
        path: &[u8],
        mode: WalkMode,
        asks: bool,
    ) -> Result<Walked, WalkErr>
        requires { IsWritten base.now }
        ensures answer { IsAnswer (canon_of (texts_by self.now.table (K.peeked kernel.old) tags.now) mode (names_of base.now) path.now) (answer_of result) }
        ensures steady { let key = key_of base.now path.now mode in
            IfOk result (λ walked. walked.steady ≡ (asks && is_steady_key (texts_by self.now.table (K.peeked kernel.old) tags.now) key)) }
        ensures written { IfOk result (λ walked. IsWritten walked.canon.guest) }
        ensures noted { let key = key_of base.now path.now mode in
            IsWalkNoted (K.unmet kernel.old && is_steady_key (texts_by self.now.table (K.peeked kernel.old) tags.now) key) (K.unmet kernel.new) result }
        ensures kernel { OnlyPeeks K.peeked K.kept kernel.old kernel.new }
    {
        let translation = Translation {
            alloc: self.alloc,
            table: &self.table,
            tags,
        };
        let ended = translation.walk(kernel, base, path, mode, asks)?;
        let canon = translation.canon(&ended.ending)?;
        Ok(Walked {
            canon,
            steady: ended.steady,
        })
    }

    /// Remembers an answer whose walk is steady.
    fn note(&mut self, key: Key, walked: Walked) -> Result<Canon, NoMemory>
        requires running { self.old.pauses ≡ 0 }
        requires fresh { lookup (same_key key) self.old.remembered ≡ None }
        requires written { IsWritten walked.canon.guest }
        ensures answer { IfOk result (λ canon. canon ≡ walked.canon) }
        ensures noted { self.new ≡ noted self.old key walked.steady result }
    {
        let Walked { canon, steady } = walked;
        if !steady {
            return Ok(canon);
        }
        let copy = canon.copy(self.alloc)?;
        self.answers.remember(key, copy)?;
        Ok(canon)
    }
}

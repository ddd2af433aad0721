//! The answers of the last walks.
ghost use Rattle.std.specs.Prelude.{◌≡◌, [], None, length, IfOk, IfSome, OnOk, OnErr};
ghost use Rattle.std.specs.Map.{lookup};
ghost use Rattle.std.specs.NonZero.{non_zero_usize_get};
ghost use Rattle.pt_bind.specs.Binding.{IsWritten};
ghost use Rattle.pt_canon.specs.KeptAnswers.{after_recall};
ghost use Rattle.pt_canon.specs.Remembering.{most_remembered, same_key, with_newest};

use crate::canon::Canon;
use crate::key::Key;
use lru::LruCache;
use pt_bind::below::pr_base::NoMemory;
use std::alloc::Global;
use std::marker::Model;
use std::num::NonZeroUsize;

/// How many answers are remembered at most.
fn most_remembered() -> NonZeroUsize
    ensures { non_zero_usize_get result ≡ most_remembered }
{
    NonZeroUsize::new(256).unwrap()
}

/// Answers under their keys, which contracts see as a list of both, the newest first.
#[derive(Drop)]
pub(crate) struct Answers {
    cache: LruCache<Vec<u8>, Canon>,
}

impl Model for Answers {
    ghost use Rattle.std.specs.Prelude.{List};
    ghost use Rattle.pt_canon.specs.KeptAnswers.{AreKept, entries_in};
    ghost use Rattle.pt_canon.specs.Remembering.{Key};
    ghost use Rattle.pt_canon.specs.declared.canon.Canon.{Canon};

    ghost Value = { List (Key × Canon) };

    ghost view = { λ a. entries_in a.cache.entries };

    ghost invariant = { λ a. AreKept a.cache };
}

impl Answers {
    /// None yet.
    pub(crate) fn new(alloc: Global) -> Result<Answers, NoMemory>
        ensures { IfOk result (λ answers. answers ≡ []) }
    {
        Ok(Answers {
            cache: LruCache::sparse(alloc, most_remembered())?,
        })
    }

    /// The answer for a key, which becomes the newest. It is copied first, so that want of memory changes nothing.
    pub(crate) fn recall(&mut self, alloc: Global, key: &Key) -> Result<Option<Canon>, NoMemory>
        ensures answer { IfOk result (λ found. found ≡ lookup (same_key key.now) self.old) }
        ensures written { IfOk result (λ found. IfSome found (λ canon. IsWritten canon.guest)) }
        ensures newest { self.new ≡ after_recall self.old key.now result }
    {
        // For the proof alone: how many there are at most.
        let _count = self.cache.len();
        let bytes = key.bytes();
        let Some(canon) = self.cache.peek(bytes) else {
            return Ok(None);
        };
        let copy = canon.copy(alloc)?;
        let _there = self.cache.promote(bytes);
        Ok(Some(copy))
    }

    /// Remembers the answer for a new key; where there are too many, the oldest one is forgotten. Want of memory changes
    /// nothing.
    pub(crate) fn remember(&mut self, key: Key, canon: Canon) -> Result<(), NoMemory>
        requires fresh { lookup (same_key key) self.old ≡ None }
        requires written { IsWritten canon.guest }
        ensures ok { OnOk result (self.new ≡ with_newest key canon self.old) }
        ensures err { OnErr result (self.new ≡ self.old) }
    {
        self.cache.put(key.into_bytes(), canon)?;
        Ok(())
    }

    /// Forgets all.
    pub(crate) fn clear(&mut self)
        ensures { self.new ≡ [] }
    {
        self.cache.clear();
    }

    pub(crate) fn len(&self) -> usize
        ensures { result ≡ length self.now }
    {
        self.cache.len()
    }
}

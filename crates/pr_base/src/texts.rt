//! Lists of texts.
ghost use Rattle.std.specs.Prelude.{◌≡◌, ℕ, List, [], ◌∷◌, ◌++◌, length, slice_get, ◌↔◌, IsTrue, OnOk, OnErr};
ghost use Rattle.std.specs.Option.{option_copied};

use crate::bytes::Bytes;
use crate::memory::NoMemory;
use std::alloc::Global;
use std::marker::Model;

/// Texts in order, as the arguments of a program, which contracts see as a list of lists of bytes.
#[derive(Drop)]
pub struct Texts {
    list: Vec<Bytes>,
}

impl Model for Texts {
    ghost Value = { List (List ℕ) };

    ghost view = { λ t. t.list.items };
}

impl From<Vec<Bytes>> for Texts {
    ghost from_gives = { λ list texts. texts ≡ list.items };

    fn from(list: Vec<Bytes>) -> Texts {
        Texts { list }
    }
}

impl Texts {
    /// No texts, in a value that can grow. It takes no memory yet.
    pub fn new(alloc: Global) -> Texts
        ensures { result ≡ [] }
    {
        Texts {
            list: Vec::new(alloc),
        }
    }

    /// Adds a text at the end.
    pub fn push(&mut self, b: Bytes) -> Result<(), NoMemory>
        ensures ok { OnOk result (self.new ≡ self.old ++ b ∷ []) }
        ensures err { OnErr result (self.new ≡ self.old) }
    {
        self.list.push(b)?;
        Ok(())
    }

    /// The texts as the vector that holds them. It takes no memory.
    pub fn into_vec(self) -> Vec<Bytes>
        ensures { result.items ≡ self }
    {
        self.list
    }

    pub fn len(&self) -> usize
        ensures { result ≡ length self.now }
    {
        self.list.len()
    }

    pub fn is_empty(&self) -> bool
        ensures { IsTrue result ↔ (self.now ≡ []) }
    {
        self.list.is_empty()
    }

    /// The text at place `k`, from 0; `None` exactly where there are no more than `k`.
    pub fn at(&self, k: usize) -> Option<&[u8]>
        ensures { option_copied result ≡ slice_get self.now k }
    {
        match self.list.get(k) {
            None => None,
            Some(text) => Some(text.as_slice()),
        }
    }
}

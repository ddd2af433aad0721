//! The variables of an environment.
ghost use Rattle.std.specs.Prelude.{◌≡◌, ◌++◌, ◌∷◌, [], Some, None, IfOk, OnOk, option_map, position};
ghost use Rattle.pr_words.specs.Values.{variable_name};
ghost use Rattle.pr_words.specs.Variables.{with_variable};

use crate::value::variable_name;
use pr_base::{Bytes, NoMemory, Texts};
use std::alloc::Global;
use std::collections::BTreeMap;
use std::marker::Model;

/// Texts `K=V` in order, which contracts see as a list of lists of bytes. Beside them each name has the place of its
/// variable, so that a name that is given again is found by binary search.
#[derive(Drop)]
pub(crate) struct Variables {
    list: Vec<Bytes>,
    places: BTreeMap<Vec<u8>, usize>,
    alloc: Global,
}

impl Model for Variables {
    ghost use Rattle.std.specs.Prelude.{ℕ, List};
    ghost use Rattle.pr_words.specs.Kept.{IsIndex};

    ghost Value = { List (List ℕ) };

    ghost view = { λ v. v.list.items };

    ghost invariant = { λ v. IsIndex v.list.items v.places };
}

/// A copy of the name of a variable; `None` where the text has none.
fn name_of(alloc: Global, text: &[u8]) -> Result<Option<Vec<u8>>, NoMemory>
    ensures { IfOk result (λ name. option_map (λ v. v.items) name ≡ variable_name text.now) }
{
    match variable_name(text) {
        Some(name) => Ok(Some(Bytes::copy(alloc, name)?.into_vec())),
        None => Ok(None),
    }
}

impl Variables {
    ghost use Rattle.pr_words.specs.Kept.{has_name};

    /// No variables, in a value that can grow. It takes no memory yet.
    pub(crate) fn new(alloc: Global) -> Variables
        ensures { result ≡ [] }
    {
        Variables {
            list: Vec::new(alloc),
            places: BTreeMap::new(alloc),
            alloc,
        }
    }

    /// Puts a variable in the place of the one of its name, or behind all others.
    pub(crate) fn put(&mut self, text: Bytes) -> Result<(), NoMemory>
        ensures { OnOk result (self.new ≡ with_variable text self.old) }
    {
        let Some(name) = name_of(self.alloc, text.as_slice())? else {
            self.list.push(text)?;
            return Ok(());
        };
        match self.places.get(&name).copied() {
            Some(place) => self.list[place] = text,
            None => self.add(name, text)?,
        }
        Ok(())
    }

    /// Adds a variable of a name that no other one has behind all others.
    fn add(&mut self, name: Vec<u8>, text: Bytes) -> Result<(), NoMemory>
        requires named { variable_name text ≡ Some name.items }
        requires new { position (has_name name.items) self.old ≡ None }
        ensures { OnOk result (self.new ≡ self.old ++ text ∷ []) }
    {
        // Room for the text first, so that nothing has to be undone where there is none.
        self.list.reserve(1)?;
        self.places.insert(name, self.list.len())?;
        self.list.push_reserved(text);
        Ok(())
    }

    /// The texts. It takes no memory.
    pub(crate) fn into_texts(self) -> Texts
        ensures { result ≡ self }
    {
        Texts::from(self.list)
    }
}

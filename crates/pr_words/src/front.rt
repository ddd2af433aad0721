//! The option at the front of some words.
ghost use Rattle.std.specs.Prelude.{◌≡◌, length, map};
ghost use Rattle.std.specs.String.{string_bytes};
ghost use Rattle.pr_words.specs.Steps.{next_value, front_of, IsWithin};

use crate::fault::Why;
use crate::kind::Kind;
use crate::spelling::{Spelled, own_value, spelling_of};
use std::marker::Model;

/// The option at the front of some words, and how many words it takes.
#[derive(Drop)]
pub(crate) struct Front<'a> {
    pub(crate) kind: Kind,
    pub(crate) value: &'a [u8],
    pub(crate) taken: usize,
}

impl<'a> Model for Front<'a> {
    ghost use Rattle.pr_words.specs.Steps.{Front as Parts};

    ghost Value = { Parts };

    ghost view = { λ f. record { kind = f.kind; value = f.value.now; taken = f.taken } };
}

/// An option whose value is the first of the words behind it, if there is one.
fn next_value(kind: Kind, words: &[String]) -> Result<Option<Front<'_>>, Why>
    ensures value { result ≡ next_value kind (map string_bytes words.now) }
    ensures within { IsWithin (length words.now) result }
{
    let [value, ..] = words else {
        return Err(Why::NoValue);
    };
    Ok(Some(Front {
        kind,
        value: value.as_bytes(),
        taken: 2,
    }))
}

impl<'a> Front<'a> {
    /// The option that a word gives before others; `None` where the command begins.
    pub(crate) fn of(word: &'a [u8], words: &'a [String]) -> Result<Option<Front<'a>>, Why>
        ensures value { result ≡ front_of word.now (map string_bytes words.now) }
        ensures within { IsWithin (length words.now) result }
    {
        match spelling_of(word) {
            Spelled::Command => Ok(None),
            Spelled::Unknown => Err(Why::Unknown),
            Spelled::Lacking(_kind) => Err(Why::NoValue),
            Spelled::Flag(kind) => Ok(Some(Front {
                kind,
                value: &[],
                taken: 1,
            })),
            Spelled::Long(kind) => Ok(Some(Front {
                kind,
                value: own_value(word),
                taken: 1,
            })),
            Spelled::Short(kind) => next_value(kind, words),
        }
    }
}

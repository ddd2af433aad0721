//! What stands between bytes of one kind, as the lines of a listing and the fields of a line.
ghost use Rattle.std.specs.Prelude.{◌≡◌, ◌≢◌, ◌∷◌, [], length, MatchOption, option_copied};
ghost use Rattle.kr_text.specs.Pieces.{pieces, pieces_left};

use std::marker::Model;

/// The pieces that weren't read yet.
#[derive(Drop)]
pub(crate) struct Pieces<'a> {
    separator: u8,
    rest: Option<&'a [u8]>,
}

impl<'a> Model for Pieces<'a> {
    ghost use Rattle.std.specs.Prelude.{ℕ, List};
    ghost use Rattle.std.specs.Option.{option_copied};
    ghost use Rattle.kr_text.specs.Pieces.{pieces_left};

    ghost Value = { List (List ℕ) };

    ghost view = { λ p. pieces_left p.separator (option_copied p.rest) };
}

/// Some bytes up to the first separator, and what stands behind it, where there is one.
fn split_at_first(bytes: &[u8], separator: u8) -> (&[u8], Option<&[u8]>)
    ensures { pieces separator bytes.now ≡ result.0.now ∷ pieces_left separator (option_copied result.1) }
{
    for (at, byte) in bytes.iter().enumerate() {
        if *byte == separator {
            return (&bytes[..at], Some(&bytes[at + 1..]));
        }
    }
    (bytes, None)
}

impl<'a> Pieces<'a> {
    pub(crate) fn of(bytes: &'a [u8], separator: u8) -> Pieces<'a>
        ensures { result ≡ pieces separator bytes.now }
    {
        Pieces {
            separator,
            rest: Some(bytes),
        }
    }

    /// The first piece, and those behind it.
    pub(crate) fn begin(bytes: &'a [u8], separator: u8) -> (&'a [u8], Pieces<'a>)
        ensures { pieces separator bytes.now ≡ result.0.now ∷ result.1 }
    {
        let (first, rest) = split_at_first(bytes, separator);
        (first, Pieces { separator, rest })
    }

    /// Reads the next piece; `None` where none is left.
    pub(crate) fn next(&mut self) -> Option<&'a [u8]>
        ensures { MatchOption result ((self.old ≡ []) × (self.new ≡ [])) (λ piece. self.old ≡ piece.now ∷ self.new) }
    {
        let (piece, rest) = split_at_first(self.rest?, self.separator);
        self.rest = rest;
        Some(piece)
    }

    /// The piece that is left, where it is one alone.
    pub(crate) fn one(mut self) -> Option<&'a [u8]>
        ensures { MatchOption result (length self.entry ≢ 1) (λ piece. self.entry ≡ piece.now ∷ []) }
    {
        let piece = self.next()?;
        match self.next() {
            None => Some(piece),
            Some(_more) => None,
        }
    }

    pub(crate) fn two(mut self) -> Option<(&'a [u8], &'a [u8])>
        ensures { MatchOption result (length self.entry ≢ 2) (λ p. self.entry ≡ p.0.now ∷ p.1.now ∷ []) }
    {
        let first = self.next()?;
        let second = self.one()?;
        Some((first, second))
    }

    pub(crate) fn four(mut self) -> Option<(&'a [u8], &'a [u8], &'a [u8], &'a [u8])>
        ensures { MatchOption result (length self.entry ≢ 4) (λ p. self.entry ≡ p.0.now ∷ p.1.now ∷ p.2.now ∷ p.3.now ∷ []) }
    {
        let first = self.next()?;
        let second = self.next()?;
        let (third, fourth) = self.two()?;
        Some((first, second, third, fourth))
    }

    pub(crate) fn five(mut self) -> Option<(&'a [u8], &'a [u8], &'a [u8], &'a [u8], &'a [u8])>
        ensures { MatchOption result (length self.entry ≢ 5) (λ p. self.entry ≡ p.0.now ∷ p.1.now ∷ p.2.now ∷ p.3.now ∷ p.4.now ∷ []) }
    {
        let first = self.next()?;
        let (second, third, fourth, fifth) = self.four()?;
        Some((first, second, third, fourth, fifth))
    }
}

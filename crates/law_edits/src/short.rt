//! Laws of how long texts are, each carried by a function that does nothing.
ghost use Rattle.law_edits.specs.Short.{ReachedTextsAreShort, SwapsAreShort};

/// The host texts to which a walk leads are at most as long as what it reached.
pub fn reached_texts_are_short()
    ensures { ReachedTextsAreShort }
{}

/// So a text in place of a path has at most 4,095 bytes, where its walk reaches no host name of more than 4,000.
pub fn swaps_are_short()
    ensures { SwapsAreShort }
{}

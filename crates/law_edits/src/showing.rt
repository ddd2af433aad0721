//! Laws of what is shown of identities, each carried by a function that does nothing.
ghost use Rattle.law_edits.specs.Showing.{EffectsAreDoneAlike, OwnersAreShownAlike};

/// Where the bytes of a `stat` were just written, its owner is shown alike, and no marked byte is read for that.
pub fn owners_are_shown_alike()
    ensures { OwnersAreShownAlike }
{}

/// A call on users and groups that reads no marked byte is answered alike.
pub fn effects_are_done_alike()
    ensures { EffectsAreDoneAlike }
{}

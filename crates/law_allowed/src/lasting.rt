//! Laws of what lasts, each carried by a function that does nothing.
ghost use Rattle.law_allowed.specs.Lasting.{LastingHasRoom, ModestChangesLast};

/// The changes of a call keep what lasts, where they can all be made.
pub fn modest_changes_last<T>()
    ensures { ModestChangesLast T }
{}

/// Where it is kept, fewer than 2^31 calls leave room for each number that the next one draws.
pub fn lasting_has_room<T, X>()
    ensures { LastingHasRoom T X }
{}

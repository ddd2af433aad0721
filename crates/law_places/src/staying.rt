//! Laws of what changes take away, each carried by a function that does nothing.
ghost use Rattle.law_places.specs.Following.{PlacesFollow, WhatStoodStands};

/// What stood at a guest text stands there in a later state, if nothing of the text was taken away.
pub fn what_stood_stands()
    ensures { WhatStoodStands }
{}

/// Where the table keeps what it needs, and each place in use stood before and keeps what it needs, all places stand.
pub fn places_follow()
    ensures { PlacesFollow }
{}

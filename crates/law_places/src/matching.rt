//! Laws of matching states, each carried by a function that does nothing.
ghost use Rattle.law_places.specs.Matching.{MatchesAreMatched, TaggedPlacesArePlaced};

/// Places in use that stand, each with the index of its mount as its tag, are placed for walks.
pub fn tagged_places_are_placed()
    ensures { TaggedPlacesArePlaced }
{}

/// Where a state with mounts and a watched one match, all that walks of a caller go by is matched.
pub fn matches_are_matched<N>()
    ensures { MatchesAreMatched N }
{}

//! Laws of calm calls, each carried by a function that does nothing.
ghost use Rattle.law_places.specs.Keeping.{CalmChangesKeepPlaces, CalmMovesKeepPlaces};

/// All places stand after changes that break none of the calm rules on changes, and move no name.
pub fn calm_changes_keep_places()
    ensures { CalmChangesKeepPlaces }
{}

/// All places stand after changes that break none of the calm rules on changes, where each name that moves stays inside.
pub fn calm_moves_keep_places()
    ensures { CalmMovesKeepPlaces }
{}

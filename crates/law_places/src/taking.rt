//! Laws of changes that take something away, each carried by a function that does nothing.
ghost use Rattle.law_places.specs.Taking.{EndsKeepPlaces, RemovalsKeepPlaces, RightsKeepPlaces};

/// All places stand after a name was taken away that isn't a source's and leads to no directory in use.
pub fn removals_keep_places()
    ensures { RemovalsKeepPlaces }
{}

/// All places stand after a mode or an owner was changed, where that takes search from nothing that needs it.
pub fn rights_keep_places()
    ensures { RightsKeepPlaces }
{}

/// All places stand after a process ended, if nothing that is in use then belongs to it.
pub fn ends_keep_places()
    ensures { EndsKeepPlaces }
{}

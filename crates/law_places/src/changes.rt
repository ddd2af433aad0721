//! Laws of changes that take nothing away, each carried by a function that does nothing.
ghost use Rattle.law_places.specs.Changes.{ChangesKeepPlaces, ChangesKeepWhatStands, QuietChangesKeepPlaces};

/// All places stand after changes that take nothing away, if each new place stands before it comes into use.
pub fn changes_keep_places()
    ensures { ChangesKeepPlaces }
{}

/// Quiet changes take nothing away, and bring no place into use.
pub fn quiet_changes_keep_places()
    ensures { QuietChangesKeepPlaces }
{}

/// What stands stands after changes that take nothing away, in use or not.
pub fn changes_keep_what_stands()
    ensures { ChangesKeepWhatStands }
{}

//! Laws of guest texts and host texts, each carried by a function that does nothing.
ghost use Rattle.law_walks.specs.Translation.{DirectoriesStandOnce, StandingPlacesAreCalled, StandingPlacesAreUncovered, TaggedPlacesStand, TextsAreOwned, TextsLeadAsTheirHostTexts};

/// The names of a guest text lead to what its host text names, in the mount to which the text belongs.
pub fn texts_lead_as_their_host_texts()
    ensures { TextsLeadAsTheirHostTexts }
{}

/// A guest text belongs to the mount with the longest location that it begins with, component by component, and its
/// host text is that mount's source followed by the rest.
pub fn texts_are_owned()
    ensures { TextsAreOwned }
{}

/// A place that stands at a guest text is called by it: by its mount's tag and its host text, and by the kernel.
pub fn standing_places_are_called()
    ensures { StandingPlacesAreCalled }
{}

/// A directory stands at one guest text, so its mount's tag and its host name determine that.
pub fn directories_stand_once()
    ensures { DirectoriesStandOnce }
{}

/// A place stands at the guest text that its mount's tag and a host text of its object give.
pub fn tagged_places_stand()
    ensures { TaggedPlacesStand }
{}

/// The host text at whose guest text a place stands doesn't lie at or below a name that the place's own mount covers.
pub fn standing_places_are_uncovered()
    ensures { StandingPlacesAreUncovered }
{}

//! Laws of states of a kernel with mounts, each carried by a function that does nothing.
ghost use Rattle.law_walks.specs.States.{FoundIsInUse, PlacesInUseAreTold, StatesAreMatched, StatesArePeekedAt};

/// What a tracer is told of a state is what walks over the host's own view of it find.
pub fn states_are_peeked_at<X>()
    ensures { StatesArePeekedAt X }
{}

/// Where each working directory, executable and open file stands at a guest text with its tag, all that walks of a
/// caller go by is matched.
pub fn states_are_matched<X>()
    ensures { StatesAreMatched X }
{}

/// Of a place in use the kernel tells the guest text, and the plain kernel its host text, of which its tag gives the
/// guest text.
pub fn places_in_use_are_told<X>()
    ensures { PlacesInUseAreTold X }
{}

/// What a walk finds that follows a last link can be used: it stands at the guest text that a tracer finds, and that
/// text's index is its tag.
pub fn found_is_in_use()
    ensures { FoundIsInUse }
{}

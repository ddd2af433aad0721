//! Laws of what calls are told in states that are equal but for mounts, each carried by a function that does nothing.
ghost use Rattle.law_walks.specs.BareFacts.{FactsAreBare, PlainFactsAreHostFacts, PlainSightIsBare, SeenOnHostIsBare};

/// What is told of a target is the same in both, and so are all facts of the host's own view.
pub fn facts_are_bare()
    ensures { FactsAreBare }
{}

/// Of a state whose places are in the host's one mount the facts of the plain view are those of the host's own.
pub fn plain_facts_are_host_facts<X>()
    ensures { PlainFactsAreHostFacts X }
{}

/// A call whose paths are absolute is told in the one, whose places are in the host's one mount, what walks over the
/// host's own view find in the other.
pub fn seen_on_host_is_bare()
    ensures { SeenOnHostIsBare }
{}

/// In two states that are equal but for mounts, and whose places are in the host's one mount, any call is told the same.
pub fn plain_sight_is_bare()
    ensures { PlainSightIsBare }
{}

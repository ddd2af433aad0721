//! Laws of where walks begin, each carried by a function that does nothing.
ghost use Rattle.law_walks.specs.Start.{FirstScenesAreMatched, HostViewsAreSettled, LivingLinksAreSmall, RootsStand, SettledBindingsAreSettled};

/// Bindings that were settled are a table whose texts and inodes belong together, in the tree that is left.
pub fn settled_bindings_are_settled()
    ensures { SettledBindingsAreSettled }
{}

/// So is the host's own view, in every tree.
pub fn host_views_are_settled()
    ensures { HostViewsAreSettled }
{}

/// The root of a view stands at the root of guest texts.
pub fn roots_stand()
    ensures { RootsStand }
{}

/// Before a process lives all that walks go by is matched.
pub fn first_scenes_are_matched()
    ensures { FirstScenesAreMatched }
{}

/// The links of living processes that are reached have numbers of 32 bits, where the processes and their descriptors
/// have.
pub fn living_links_are_small()
    ensures { LivingLinksAreSmall }
{}

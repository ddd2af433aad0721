//! Laws of views and walks, each carried by a function that does nothing.
ghost use Rattle.kr_view.specs.GuestNames.{GuestNamesGoByPlaces};
ghost use Rattle.kr_view.specs.InTree.{NoProcessesKeepLaws, WalksKeepPlaces};
ghost use Rattle.kr_view.specs.Living.{LivingProcessesKeepLaws};
ghost use Rattle.kr_view.specs.Laws.{FoundIsShown, PlacesHaveTheirLaws, PlainStands, ReachedIsFound, SettledSourcesAreEntries, WalksEndInDirectories, WalksReadNodes};

/// The laws of a view whose mounts stand in a tree.
pub fn places_have_their_laws()
    ensures { PlacesHaveTheirLaws }
{}

/// The host's own view stands in every tree, and is as it was settled.
pub fn plain_stands()
    ensures { PlainStands }
{}

/// The directory and name of a mount's source lead to it, while the mounts are as they were settled.
pub fn settled_sources_are_entries()
    ensures { SettledSourcesAreEntries }
{}

/// The guest name of a place goes by the place: the source of a mount is called by its location, what is
/// below by the names from there down, and nothing else has one; nor has a file that remembers no entry.
pub fn guest_names_go_by_places()
    ensures { GuestNamesGoByPlaces }
{}

/// What a walk found is what its last component shows from the directory of the target.
pub fn found_is_shown()
    ensures { FoundIsShown }
{}

/// Where a walk ends is a directory: the directory of the target of a walk along a path that isn't empty, over
/// mounts that stand in the tree, if no link of the process directory led there. Nothing is asked of the
/// place where the walk begins, since a component is looked up in a directory alone; of a path without
/// components that place is the target's directory, which is why the path of no bytes is left out, and why
/// the root, where slashes alone lead, must stand. What a link of the process directory led to as the last
/// component isn't looked at again: a directory is its own, and of a file the directory is what its object
/// remembers, of which the walk knows nothing.
pub fn walks_end_in_directories()
    ensures { WalksEndInDirectories }
{}

/// Before a process lives the process directory keeps all that every one keeps, and leads nowhere.
pub fn no_processes_keep_laws()
    ensures { NoProcessesKeepLaws }
{}

/// A process directory with a directory for each living process and a link for each of its descriptors keeps
/// all that every one keeps.
pub fn living_processes_keep_laws()
    ensures { LivingProcessesKeepLaws }
{}

/// A walk comes to places of the view in the tree alone, where it begins at one and where the links of the
/// process directory lead to such. The directory that a file remembers, to which such a link leads, is one
/// where it has the file's entry.
pub fn walks_keep_places()
    ensures { WalksKeepPlaces }
{}

/// A walk reads the nodes of a tree alone. So two trees that differ in holds and counts answer alike.
pub fn walks_read_nodes()
    ensures { WalksReadNodes }
{}

/// Over the host's own view a walk along a text that is reached arrives there.
pub fn reached_is_found()
    ensures { ReachedIsFound }
{}

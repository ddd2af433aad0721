//! Laws of tags, each carried by a function that does nothing.
ghost use Rattle.law_places.specs.Tagging.{TagsFollow};

/// After a change each slot's tag is the index of its mount: what is made has that of the mount that the change takes,
/// and a copy its original's.
pub fn tags_follow()
    ensures { TagsFollow }
{}

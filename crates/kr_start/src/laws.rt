//! Laws of the state in which a run begins, each carried by a function that does nothing.
ghost use Rattle.kr_start.specs.Laws.{SourcesAreHeld, StartsLast};

/// In a tree without holds, in which a view's mounts stand, each of their sources is then held once, and nothing else.
pub fn sources_are_held()
    ensures { SourcesAreHeld }
{}

/// Over a tree and of a user that can last, the state before a process lives has what lasts, and so has the one with the first
/// process.
pub fn starts_last<T>()
    ensures { StartsLast T }
{}

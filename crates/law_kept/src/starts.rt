//! Laws of starts, each carried by a function that does nothing.
ghost use Rattle.law_kept.specs.Starts.{BeginningsHaveBytes, StartsHaveBytes, TablesHaveBytes};

/// The host's own view has bytes, and so has a table of mounts as it was settled, where its locations have.
pub fn tables_have_bytes()
    ensures { TablesHaveBytes }
{}

/// A state in which a run begins has bytes, where the tree, the input and the first process have.
pub fn starts_have_bytes<M>()
    ensures { StartsHaveBytes M }
{}

/// So has that of a start, of words of bytes.
pub fn beginnings_have_bytes()
    ensures { BeginningsHaveBytes }
{}

//! Laws of starts, each carried by a function that does nothing.
ghost use Rattle.kr_first.specs.Laws.{RootsAreDirectories};

/// The root can be the working directory of each start: slashes alone lead there, and it is a directory.
pub fn roots_are_directories()
    ensures { RootsAreDirectories }
{}

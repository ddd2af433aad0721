//! Laws of the lists of execve(2), each carried by a function that does nothing.
ghost use Rattle.law_edits.specs.Reading.{ListsAreReadAlike, ShownListsAreReadAlike};

/// A tracer reads of a memory what the kernel does, and is told as much of it.
pub fn lists_are_read_alike()
    ensures { ListsAreReadAlike }
{}

/// So it does of another one that is equal but for marked bytes, where the kernel reads none of these.
pub fn shown_lists_are_read_alike()
    ensures { ShownListsAreReadAlike }
{}

//! Laws of memories without a mark, each carried by a function that does nothing.
ghost use Rattle.law_edits.specs.Fresh.{BeginningsReadNoMark, FreshMemoriesStay, ImagesAreFresh, ProgramsAreFresh};

/// Whatever is done in a memory without a mark leaves it so, and reads none.
pub fn fresh_memories_stay<A>()
    ensures { FreshMemoriesStay A }
{}

/// The image of a program has none.
pub fn images_are_fresh()
    ensures { ImagesAreFresh }
{}

/// Nor has that of each program that an execve(2) comes to.
pub fn programs_are_fresh()
    ensures { ProgramsAreFresh }
{}

/// So telling such a program who it is reads none.
pub fn beginnings_read_no_mark()
    ensures { BeginningsReadNoMark }
{}

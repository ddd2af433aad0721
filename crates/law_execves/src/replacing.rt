//! Laws of programs that take the place of others, each carried by a function that does nothing.
ghost use Rattle.law_execves.specs.Replacing.{LoadedProgramsAreReady, ProgramsKeepMatches, ReadyProgramsCanBePut};

/// A program that execve(2) comes to was accepted and is within all limits, and its file stands in the view.
pub fn loaded_programs_are_ready()
    ensures { LoadedProgramsAreReady }
{}

/// Such a program can be put in place of a caller's in each lawful state with the same tree, user and pages.
pub fn ready_programs_can_be_put()
    ensures { ReadyProgramsCanBePut }
{}

/// Where the same program is put in place of a caller's in two states that match, these match again, with the tag of its file.
pub fn programs_keep_matches()
    ensures { ProgramsKeepMatches }
{}

//! Laws of programs and scripts in a state, each carried by a function that does nothing.
ghost use Rattle.law_programs.specs.Expanding.{ExpansionsAgree};
ghost use Rattle.law_programs.specs.Finding.{ProgramsAreFoundAlike};
ghost use Rattle.law_programs.specs.Planning.{ProgramsArePlannedAlike};
ghost use Rattle.law_programs.specs.Working.{WorkingDirectoriesAreKnown};

/// A kernel with mounts and a tracer begin to look for programs at the same working directory.
pub fn working_directories_are_known<X>()
    ensures { WorkingDirectoriesAreKnown X }
{}

/// They find the same program along a path, or the same error.
pub fn programs_are_found_alike<X>()
    ensures { ProgramsAreFoundAlike X }
{}

/// So what runs in the end of a path is the same program with the same arguments, or the same error.
pub fn expansions_agree<X>()
    ensures { ExpansionsAgree X }
{}

/// And the plan of a kernel with mounts is that of the plain kernel, of what a tracer hands over, or the error that a tracer answers.
pub fn programs_are_planned_alike<X>()
    ensures { ProgramsArePlannedAlike X }
{}

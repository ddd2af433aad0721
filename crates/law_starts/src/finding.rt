//! Laws of what both machines find before a process lives, each carried by a function that does nothing.
ghost use Rattle.law_starts.specs.Commands.{CommandsAgree};
ghost use Rattle.law_starts.specs.Plans.{DirectoriesAreHandedOver, ProgramsAreHandedOver};
ghost use Rattle.law_starts.specs.Programs.{ProgramsAgree};
ghost use Rattle.law_starts.specs.Running.{RunsAgree};
ghost use Rattle.law_starts.specs.Scripts.{ScriptsAgree};
ghost use Rattle.law_starts.specs.Working.{WorkingDirectoriesAgree};

/// The first working directory stands at the guest text that a tracer's walk gives.
pub fn working_directories_agree()
    ensures { WorkingDirectoriesAgree }
{}

/// Along a path from it both machines find the same program, or the same error; and its host text is no longer than the walk reaches.
pub fn programs_agree()
    ensures { ProgramsAgree }
{}

/// And behind the scripts of that program the same one runs, with the same arguments, or the same error is answered.
pub fn scripts_agree()
    ensures { ScriptsAgree }
{}

/// The plain kernel comes to a directory by the host text at which it stands.
pub fn directories_are_handed_over()
    ensures { DirectoriesAreHandedOver }
{}

/// And by that of a program which is no script it plans to run the same one.
pub fn programs_are_handed_over()
    ensures { ProgramsAreHandedOver }
{}

/// So the same program runs in the end, with the same arguments, or the same error is answered.
pub fn runs_agree()
    ensures { RunsAgree }
{}

/// Both machines take the same path for a command, or find none.
pub fn commands_agree()
    ensures { CommandsAgree }
{}

//! Laws of calls that a tracer answers itself, each carried by a function that does nothing.
ghost use Rattle.law_edits.specs.Answers.{CwdsAreAnsweredAlike, ErrorsAreToldAlike, LinkTextsAreToldAlike, WorkingTextsAreNames};

/// The guest text of a working directory is its guest name.
pub fn working_texts_are_names<X>()
    ensures { WorkingTextsAreNames X }
{}

/// A tracer answers getcwd(2) as the kernel with mounts does.
pub fn cwds_are_answered_alike()
    ensures { CwdsAreAnsweredAlike }
{}

/// The text of a link is told by a tracer as by a kernel that has it.
pub fn link_texts_are_told_alike()
    ensures { LinkTextsAreToldAlike }
{}

/// And so is an error.
pub fn errors_are_told_alike()
    ensures { ErrorsAreToldAlike }
{}

//! Laws of single paths of a call, each carried by a function that does nothing.
ghost use Rattle.law_plans.specs.Begins.{BasesAgree, PathsAgree};
ghost use Rattle.law_plans.specs.OnePath.{SwapsAgree};

/// A path begins nowhere for the tracer and both kernels, or at a place and at a guest text at which it stands.
pub fn bases_agree()
    ensures { BasesAgree }
{}

/// A path stays as it is and fails for both kernels alike, or its walk fails for the tracer as for the kernel with
/// mounts, or it leads somewhere for both.
pub fn paths_agree()
    ensures { PathsAgree }
{}

/// Along the text that takes the place of a path the plain kernel is told the same as the kernel with mounts is along the
/// path; a mount point's name that is taken away is known to the tracer, and so is a name with a slash behind it that is
/// to be made a file.
pub fn swaps_agree()
    ensures { SwapsAgree }
{}

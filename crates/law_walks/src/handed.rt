//! Laws of what is handed to the plain kernel, each carried by a function that does nothing.
ghost use Rattle.law_walks.specs.Answers.{AnswersTellTargets};
ghost use Rattle.law_walks.specs.Handed.{CoveredNamesArePoints, DirectoriesOfNamesAreSearched, FoundIsHandedOver, LastsAreHandedOver, NamedTextsAreFound, NamesAreHandedOver};

/// The plain kernel finds the same object by the host text of what was found, and of what is no directory the entry
/// that an opening remembers.
pub fn found_is_handed_over()
    ensures { FoundIsHandedOver }
{}

/// The plain kernel comes to the same name of the same directory by the directory's host text and the name.
pub fn names_are_handed_over()
    ensures { NamesAreHandedOver }
{}

/// What was found under a name stands at the guest text of the directory and the name.
pub fn named_texts_are_found()
    ensures { NamedTextsAreFound }
{}

/// A last `.` or `..`, and the root, are so to the plain kernel, too.
pub fn lasts_are_handed_over()
    ensures { LastsAreHandedOver }
{}

/// A kernel with mounts tells by inodes which names are covered, and a tracer by host texts.
pub fn covered_names_are_points()
    ensures { CoveredNamesArePoints }
{}

/// The answer of a tracer's walker tells where the walk over guest texts ends: what was found, the directory and the
/// name, or the directory.
pub fn answers_tell_targets()
    ensures { AnswersTellTargets }
{}

/// The directory in which both walks end at a name stands at its guest text, and may be searched.
pub fn directories_of_names_are_searched()
    ensures { DirectoriesOfNamesAreSearched }
{}

//! Laws of lawful states and of changes, each carried by a function that does nothing.
ghost use Rattle.law_lawful.specs.Holding.{HoldsAreChanged, HoldsFit, PinsAreFew, UsedIsHeld};
ghost use Rattle.law_lawful.specs.Laws.{AllChangesKeepLawful, ChangesKeepLawful, EveryChangeKeepsLawful};

/// A hold and a release change the count of holds of one inode by one.
pub fn holds_are_changed()
    ensures { HoldsAreChanged }
{}

/// The mounts hold an inode once at most.
pub fn pins_are_few()
    ensures { PinsAreFew }
{}

/// In a state where the holds are those of its uses, each count of holds and of descriptors has room for a process more.
pub fn holds_fit<T, X>()
    ensures { HoldsFit T X }
{}

/// What is open, and what a process stands in and executes, is held.
pub fn used_is_held<T, X>()
    ensures { UsedIsHeld T X }
{}

/// Each change of a call keeps a lawful state, where it can be made.
pub fn changes_keep_lawful<T>()
    ensures { ChangesKeepLawful T }
{}

/// And so does every change, whatever it is.
pub fn every_change_keeps_lawful<T>()
    ensures { EveryChangeKeepsLawful T }
{}

/// And so do all changes of a call, one behind the other.
pub fn all_changes_keep_lawful<T>()
    ensures { AllChangesKeepLawful T }
{}

//! Laws of the processes other than a caller, each carried by a function that does nothing.
ghost use Rattle.law_allowed.specs.Others.{AllOthersLiveOn, OthersLiveOn, OthersStay};

/// A change of a call leaves each other living process with all that is its own.
pub fn others_live_on<T, X>()
    ensures { OthersLiveOn T X }
{}

/// And so do all changes of a call, in their order.
pub fn all_others_live_on<T, X>()
    ensures { AllOthersLiveOn T X }
{}

/// What is done to one process leaves the others as they are.
pub fn others_stay<T, X>()
    ensures { OthersStay T X }
{}

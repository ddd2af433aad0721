//! Laws of shelves, each carried by a function that does nothing.
ghost use Rattle.law_edits.specs.CallShelves.{CalmCallsHaveShelves, PathsHaveNumbers, ShelvesAreSeen};

/// A request with a path has the number of a call with one.
pub fn paths_have_numbers()
    ensures { PathsHaveNumbers }
{}

/// Such a call has a shelf, where it breaks no calm rule.
pub fn calm_calls_have_shelves()
    ensures { CalmCallsHaveShelves }
{}

/// A tracer sees the same shelf of the process that it watches.
pub fn shelves_are_seen()
    ensures { ShelvesAreSeen }
{}

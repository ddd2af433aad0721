//! Laws of calls, turns and runs, each carried by a function that does nothing.
ghost use Rattle.law_marks.specs.Calls.{PlainCallsSeeNoMarks, ShelvesAreMarks};
ghost use Rattle.law_marks.specs.Turns.{RunsSeeNoMarks, RunsTellAlike, TurnsSeeNoMarks, WatchersSeeNoMarks};

/// A shelf is nothing but marks.
pub fn shelves_are_marks()
    ensures { ShelvesAreMarks }
{}

/// A call comes to the same with and without marks.
pub fn plain_calls_see_no_marks()
    ensures { PlainCallsSeeNoMarks }
{}

/// So do nobody's stops, and those of who fakes identities.
pub fn watchers_see_no_marks<S>()
    ensures { WatchersSeeNoMarks S }
{}

/// And so does a turn.
pub fn turns_see_no_marks<S>()
    ensures { TurnsSeeNoMarks S }
{}

/// And a run.
pub fn runs_see_no_marks<S>()
    ensures { RunsSeeNoMarks S }
{}

/// So all is told alike of a run with marks and of one without, but for calm.
pub fn runs_tell_alike<S>()
    ensures { RunsTellAlike S }
{}

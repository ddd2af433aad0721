//! Laws of loose runs that nobody watches, each carried by a function that does nothing.
ghost use Rattle.law_loose.specs.Unwatched.{UnwatchedRunsAreTheirImages, UnwatchedStepsLag};

/// A step keeps the two machines beside each other, and its turns put its bytes.
pub fn unwatched_steps_lag<S>()
    ensures { UnwatchedStepsLag S }
{}

/// A quiet loose run comes to what the run by turns comes to for which it stands.
pub fn unwatched_runs_are_their_images<S>()
    ensures { UnwatchedRunsAreTheirImages S }
{}

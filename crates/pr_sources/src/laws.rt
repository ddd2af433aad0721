//! Laws of reading sources, each carried by a function that does nothing.
ghost use Rattle.pr_sources.specs.Telling.{SourcesThatTellAgree, UnlistedAreUntouched, UnwantedAreUntouched};

/// What sources tell that they had left comes to the same as what they gave in a call that read them, but for an early end.
pub fn sources_that_tell_agree()
    ensures { SourcesThatTellAgree }
{}

/// What is only touched behind a listing that wants it isn't touched where the listing that the tree tells doesn't.
pub fn unwanted_are_untouched<S>()
    ensures { UnwantedAreUntouched S }
{}

/// What is only touched behind a listing that was read isn't touched where the one that the sources tell is refused.
pub fn unlisted_are_untouched<S>()
    ensures { UnlistedAreUntouched S }
{}

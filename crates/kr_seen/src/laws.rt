//! Laws of the process directory over a state, each carried by a function that does nothing.
ghost use Rattle.kr_seen.specs.Laws.{LawfulAreShown, ShowsTheDirectory};

/// What is shown of a state is what the definition shows of the same state, with its mounts told by their numbers.
pub fn shows_the_directory<T>()
    ensures { ShowsTheDirectory T }
{}

/// Over a lawful state the process directory keeps what every one keeps, and its links lead to places of the view.
pub fn lawful_are_shown<T>()
    ensures { LawfulAreShown T }
{}

//! Laws of the states in which both machines begin, each carried by a function that does nothing.
ghost use Rattle.law_starts.specs.FirstStates.{FirstStatesLast, FirstStatesMatch};
ghost use Rattle.law_starts.specs.Openings.{SettledSourcesAreNamed};
ghost use Rattle.law_starts.specs.Starts.{BeginningsAreJudged, StartsGoTogether};

/// The states in which the first process begins match, where it stands at guest texts.
pub fn first_states_match()
    ensures { FirstStatesMatch }
{}

/// And both are lawful, with what lasts.
pub fn first_states_last()
    ensures { FirstStatesLast }
{}

/// So both machines begin together, or are refused with the same error, where the walks of the start break no calm rule.
pub fn starts_go_together()
    ensures { StartsGoTogether }
{}

/// Where bindings were settled each mount's source is the entry at which it was, that of a directory too.
pub fn settled_sources_are_named()
    ensures { SettledSourcesAreNamed }
{}

/// A machine that begins over mounts is judged by the walks of its start alone.
pub fn beginnings_are_judged()
    ensures { BeginningsAreJudged }
{}

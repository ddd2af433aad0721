//! Laws of what runs begin on, each carried by a function that does nothing.
ghost use Rattle.law_machines.specs.Asking.{AskedAreSound, AskedAreOfBytes};
ghost use Rattle.law_machines.specs.Given.{GivenIsOpening};
ghost use Rattle.law_machines.specs.GivenOpenings.{SettledIsOpening, SettledTreesHaveBytes};

/// Where bindings are settled in a tree that was read, both machines can begin.
pub fn settled_is_opening()
    ensures { SettledIsOpening }
{}

/// Words of bytes ask for options whose texts are bytes.
pub fn asked_are_of_bytes()
    ensures { AskedAreOfBytes }
{}

/// Words ask for options that are within their limits.
pub fn asked_are_sound()
    ensures { AskedAreSound }
{}

/// Settling bindings of bytes leaves a tree of bytes.
pub fn settled_trees_have_bytes()
    ensures { SettledTreesHaveBytes }
{}

/// What a run is given by words of bytes, and by sources that were read, is what both machines can begin on.
pub fn given_is_opening()
    ensures { GivenIsOpening }
{}

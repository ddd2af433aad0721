//! Laws of calls with a path, each carried by a function that does nothing.
ghost use Rattle.law_turns.specs.PathCalls.{PathCallsAreCalm, PathCallsAreNoted, PathCallsBringStanding, PathCallsMoveInside, TextsHaveIndices};

/// What a call with a path brings into use stands before it.
pub fn path_calls_bring_standing()
    ensures { PathCallsBringStanding }
{}

/// A calm one moves names between directories alone that no source and no mount point parts.
pub fn path_calls_move_inside()
    ensures { PathCallsMoveInside }
{}

/// And so it is what a call must be that keeps a match, where on the plain kernel it names the same mounts and is allowed.
pub fn path_calls_are_calm()
    ensures { PathCallsAreCalm }
{}

/// What a tracer notes of such a call is what its changes make of the tags.
pub fn path_calls_are_noted()
    ensures { PathCallsAreNoted }
{}

/// The guest text to which a walk comes has the index of the mount to which the walk over places comes.
pub fn texts_have_indices()
    ensures { TextsHaveIndices }
{}

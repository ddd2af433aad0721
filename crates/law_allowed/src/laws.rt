//! Laws of rows that are allowed, each carried by a function that does nothing.
ghost use Rattle.law_allowed.specs.Calls.{DecodedAreGivable, OperationIsAllowed, SilentCallsAreAllowed};
ghost use Rattle.law_allowed.specs.Told.{CallsLeaveLawful, CallsWalkToTargets, SettledAreNamed, TargetsAreTold, WalkedCallsLeaveLawful, WalksGiveTargets};

/// A call whose line in the table says that it changes nothing and ends nobody leaves a lawful state.
pub fn silent_calls_are_allowed<T>()
    ensures { SilentCallsAreAllowed T }
{}

/// And so does every call but execve(2): the changes that it replies can all be made, one behind the other.
pub fn operation_is_allowed<T>()
    ensures { OperationIsAllowed T }
{}

/// Decoding gives such arguments as calls rest on, of a memory that holds bytes.
pub fn decoded_are_givable()
    ensures { DecodedAreGivable }
{}

/// Walks give such targets as calls rest on, where the names of these are good.
pub fn walks_give_targets()
    ensures { WalksGiveTargets }
{}

/// So do all walks of a call over a lawful state, whose process links lead to places of the view.
pub fn calls_walk_to_targets()
    ensures { CallsWalkToTargets }
{}

/// The sources of a table as it was settled have good names.
pub fn settled_sources_are_named()
    ensures { SettledAreNamed }
{}

/// What a call is told of such targets is so.
pub fn targets_are_told()
    ensures { TargetsAreTold }
{}

/// With such targets every call but execve(2) on a lawful state leaves one, and names the mounts of its first path's target.
pub fn calls_leave_lawful()
    ensures { CallsLeaveLawful }
{}

/// And so does every call but execve(2) with its walks, whatever they come to.
pub fn walked_calls_leave_lawful()
    ensures { WalkedCallsLeaveLawful }
{}

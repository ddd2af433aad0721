//! Laws of walks in states that are equal but for mounts, each carried by a function that does nothing.
ghost use Rattle.law_walks.specs.Alike.{HostWalksAreBare, PeeksAreBare};
ghost use Rattle.law_walks.specs.OneMount.{LawfulStatesAreInOneMount, PlainWalksAreHostWalks};

/// A tracer is told the same of both.
pub fn peeks_are_bare<M, N>()
    ensures { PeeksAreBare M N }
{}

/// Walks over the host's own view are the same in both.
pub fn host_walks_are_bare<M, N>()
    ensures { HostWalksAreBare M N }
{}

/// All places of a state that is lawful for the plain view are in the host's one mount.
pub fn lawful_states_are_in_one_mount()
    ensures { LawfulStatesAreInOneMount }
{}

/// The walks of such a state over the plain view are those over the host's own.
pub fn plain_walks_are_host_walks<X>()
    ensures { PlainWalksAreHostWalks X }
{}

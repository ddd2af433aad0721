//! The law of what calls are told of the targets of their walks, carried by a function that does nothing.
ghost use Rattle.kr_perform.specs.Walked.{ResolvedAreTold};

/// What a call is told of the targets to which its walks lead over a lawful state is so, in the mounts of the machine.
pub fn resolved_are_told<T, const M: u8>()
    ensures { ResolvedAreTold T M }
{}

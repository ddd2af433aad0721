//! Laws of states, each carried by a function that does nothing.
ghost use Rattle.kr_ops.specs.Laws.{LawfulAreSound};

/// A state of the code that means a lawful state, whatever the view, meets what its changes rest on.
pub fn lawful_states_are_sound<T, const M: u8>()
    ensures { LawfulAreSound T M }
{}

//! Laws of states with the numbers of their mounts, each carried by a function that does nothing.
ghost use Rattle.kr_seen.specs.MountLaws.{ChangesAreNumbered, ChoicesAreNumbered, KnownIsNumbered, LooksAreNumbered, ProcessesAreAsked, StepsAreNumbered};

/// The processes and the open files of a state with numbers are those of the state, with numbers.
pub fn looks_are_numbered<T, X>()
    ensures { LooksAreNumbered T X }
{}

/// What is asked of a process is the same with the numbers of its mounts, where it is the same of each process.
pub fn processes_are_asked<T, X, A>()
    ensures { ProcessesAreAsked T X A }
{}

/// What calls ask of a state is the same of the state with numbers.
pub fn known_is_numbered<T, X>()
    ensures { KnownIsNumbered T X }
{}

/// A change, and all changes of a call, do on a state with numbers what they do on the state.
pub fn changes_are_numbered<T, X>()
    ensures { ChangesAreNumbered T X }
{}

/// And so does what is done to one process, alone or before the changes of a call.
pub fn steps_are_numbered<T, X>()
    ensures { StepsAreNumbered T X }
{}

/// The processes of a state with numbers that pass a test, and the one of them that a turn picks, are those of the state.
pub fn choices_are_numbered<T, X>()
    ensures { ChoicesAreNumbered T X }
{}

//! Laws of instructions and of changes, each carried by a function that does nothing.
ghost use Rattle.law_kept.specs.Laws.{ChangesKeepBytes, ComputingKeepsBytes, InstructionsKeepBytes, InstructionsKeepRegisters, ProcessesHaveBytes};

/// Instructions leave a memory that holds bytes.
pub fn instructions_keep_bytes()
    ensures { InstructionsKeepBytes }
{}

/// And as many registers as there were.
pub fn instructions_keep_registers()
    ensures { InstructionsKeepRegisters }
{}

/// Each process that lives in a state that has bytes has a memory that holds bytes, and 32 registers.
pub fn processes_have_bytes<M>()
    ensures { ProcessesHaveBytes M }
{}

/// A process that is given 32 other registers, and a memory that holds bytes, leaves a state that has bytes.
pub fn computing_keeps_bytes<M>()
    ensures { ComputingKeepsBytes M }
{}

/// Changes that bring bytes leave a state that has bytes, whether they can be made or not.
pub fn changes_keep_bytes<M>()
    ensures { ChangesKeepBytes M }
{}

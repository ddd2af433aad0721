//! Laws of memories, instructions and changes, each carried by a function that does nothing.
ghost use Rattle.law_marks.specs.Laws.{ActionsSeeNoMarks, CallsSeeNoMarks, ChangesSeeNoMarks, InstructionsSeeNoMarks, MarksAreApart};

/// To mark bytes changes marks alone.
pub fn marks_are_apart()
    ensures { MarksAreApart }
{}

/// An action does the same on a memory with and without marks.
pub fn actions_see_no_marks<T>()
    ensures { ActionsSeeNoMarks T }
{}

/// And so do instructions.
pub fn instructions_see_no_marks()
    ensures { InstructionsSeeNoMarks }
{}

/// Calls know and are told the same.
pub fn calls_see_no_marks()
    ensures { CallsSeeNoMarks }
{}

/// Their changes leave the same but for marks.
pub fn changes_see_no_marks<T>()
    ensures { ChangesSeeNoMarks T }
{}

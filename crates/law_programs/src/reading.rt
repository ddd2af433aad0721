//! The law of the lists that the plain kernel reads of a script, carried by a function that does nothing.
ghost use Rattle.law_programs.specs.Reading.{ScriptListsAreRead};

use law_edits::below::shelves_hold_their_items;

/// Behind the first stop of a script the plain kernel reads the arguments that the tracer found, and the environment of the call.
pub fn script_lists_are_read()
    ensures { ScriptListsAreRead }
{
    shelves_hold_their_items();
}

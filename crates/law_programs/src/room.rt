//! Laws of the room that scripts take on the shelf, each carried by a function that does nothing.
ghost use Rattle.law_programs.specs.Room.{ScriptTextsArePathTexts, ScriptsAreShelved, ScriptsHaveRoom, ScriptsKeepTheLimits};

/// The texts that scripts put before the kept arguments, the last program's host text and the list of addresses have room on the shelf.
pub fn scripts_have_room()
    ensures { ScriptsHaveRoom }
{}

/// The texts that scripts put before the kept arguments can be paths: none is too long, and none holds a zero byte.
pub fn script_texts_are_path_texts()
    ensures { ScriptTextsArePathTexts }
{}

/// So a tracer that can read the kept addresses never cancels a script for want of room.
pub fn scripts_are_shelved()
    ensures { ScriptsAreShelved }
{}

/// The arguments of what runs behind scripts are within the limits of a program's.
pub fn scripts_keep_the_limits()
    ensures { ScriptsKeepTheLimits }
{}

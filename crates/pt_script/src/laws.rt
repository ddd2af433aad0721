//! Laws of the definitions, each carried by a function that does nothing.
ghost use Rattle.pt_script.specs.Laws.{ArgumentsFollow, ProgramsAreOfGuestTexts, ProgramsRunByChains, ScriptsEnd};

use pt_args::below::pt_canon::laws::answers_are_of_their_texts;

/// A program runs behind at most five scripts, which lead to one another; six answer ELOOP.
pub fn scripts_end()
    ensures { ScriptsEnd }
{}

/// No program runs in another way.
pub fn programs_run_by_chains()
    ensures { ProgramsRunByChains }
{}

/// The host text and the index of a program are those of a guest text.
pub fn programs_are_of_guest_texts()
    ensures { ProgramsAreOfGuestTexts }
{
    answers_are_of_their_texts();
}

/// The arguments of the last interpreter end with the first script's path and its arguments but the first.
pub fn arguments_follow()
    ensures { ArgumentsFollow }
{}

//! The law of a script's shelf, carried by a function that does nothing.
ghost use Rattle.law_programs.specs.Shelves.{ShelvedScriptsStand};

use law_edits::below::shelves_hold_their_items;

/// Behind the first stop of a script the host text stands at its address, and the new list at its own: the texts that scripts put there,
/// and behind them those that are kept.
pub fn shelved_scripts_stand()
    ensures { ShelvedScriptsStand }
{
    shelves_hold_their_items();
}

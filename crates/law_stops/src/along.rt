//! Laws of calls along paths, each carried by a function that does nothing but name laws on which it rests.
ghost use Rattle.law_stops.specs.Along.{PathCallsGoTogether, PathCallsJustAnswer};
ghost use Rattle.law_stops.specs.Kinds.{FakedAnswersGoTogether, FakedErrorsGoTogether, FakedPassesGoTogether, FakedSwapsGoTogether};

use law_turns::below::{shelves_hold_their_items, texts_are_read_back};

/// Each kernel answers a call along paths, or one that isn't decoded, and makes no child of it.
pub fn path_calls_just_answer()
    ensures { PathCallsJustAnswer }
{}

/// So a call along paths keeps both machines together, where it does so without an identity.
pub fn path_calls_go_together()
    ensures { PathCallsGoTogether }
{}

/// So does one whose paths the tracer swaps.
pub fn faked_swaps_go_together()
    ensures { FakedSwapsGoTogether }
{
    texts_are_read_back();
    shelves_hold_their_items();
}

/// And one whose paths it leaves as they are.
pub fn faked_passes_go_together()
    ensures { FakedPassesGoTogether }
{}

/// And one that it answers.
pub fn faked_answers_go_together()
    ensures { FakedAnswersGoTogether }
{}

/// And one that it cancels.
pub fn faked_errors_go_together()
    ensures { FakedErrorsGoTogether }
{}

//! Laws of calls where an identity is told, each carried by a function that does nothing.
ghost use Rattle.law_paths.specs.FakedCalls.{OtherFakedCallsGoTogether};

use law_stops::below::{shelves_hold_their_items, texts_are_read_back};

/// Each call but execve(2) keeps both machines together with its stops, where the same identity is told on both, and it breaks no calm rule.
pub fn other_faked_calls_go_together()
    ensures { OtherFakedCallsGoTogether }
{
    texts_are_read_back();
    shelves_hold_their_items();
}

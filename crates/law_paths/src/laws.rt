//! Laws of calls along paths, each carried by a function that does nothing.
ghost use Rattle.law_paths.specs.Calls.{OtherCallsGoTogether, PathCallsAreMadeAlike, PathCallsGoTogether};

use law_stops::below::{shelves_hold_their_items, texts_are_read_back};

/// Of a calm call along paths the tracer makes what the kernel with mounts makes of it: it leaves it as it is, swaps its paths, cancels it or
/// answers it.
pub fn path_calls_are_made_alike<S>()
    ensures { PathCallsAreMadeAlike S }
{
    texts_are_read_back();
    shelves_hold_their_items();
}

/// So a call along paths keeps two machines together, with its stops, where it breaks no calm rule.
pub fn path_calls_go_together<S>()
    ensures { PathCallsGoTogether S }
{
    texts_are_read_back();
    shelves_hold_their_items();
}

/// And so does each other call but execve(2).
pub fn other_calls_go_together<S>()
    ensures { OtherCallsGoTogether S }
{
    texts_are_read_back();
    shelves_hold_their_items();
}

//! Laws of the stops of calls without a path, each carried by a function that does nothing.
ghost use Rattle.law_stops.specs.Answering.{AnsweredCallsGoTogether};
ghost use Rattle.law_stops.specs.Cancelling.{CancelledCallsGoTogether};
ghost use Rattle.law_stops.specs.Noting.{NotesFollow};
ghost use Rattle.law_stops.specs.Passing.{EntriesPass, ExitsPass};
ghost use Rattle.law_stops.specs.Swapping.{PassedCallsGoTogether, SwappedCallsGoTogether};
ghost use Rattle.law_stops.specs.Turning.{PathlessCallsGoTogether};

use law_turns::below::{shelves_hold_their_items, texts_are_read_back};

/// At the first stop of a call without a path the process is left as it is.
pub fn entries_pass()
    ensures { EntriesPass }
{}

/// And so it is at the second one, where its arguments are as they were.
pub fn exits_pass()
    ensures { ExitsPass }
{}

/// What a tracer notes of such calls is what their changes make of the tags.
pub fn notes_follow()
    ensures { NotesFollow }
{}

/// So a call without a path, or one that isn't decoded, keeps two machines together, with its stops, where it breaks no calm rule.
pub fn pathless_calls_go_together<S>()
    ensures { PathlessCallsGoTogether S }
{}

/// And so does one that the tracer cancels with the error that the kernel with mounts answers.
pub fn cancelled_calls_go_together<S>()
    ensures { CancelledCallsGoTogether S }
{}

/// And so does one whose paths the tracer swaps, where the plain kernel is told of the new paths what the kernel with mounts is told of
/// the old ones.
pub fn swapped_calls_go_together<S>()
    ensures { SwappedCallsGoTogether S }
{
    texts_are_read_back();
    shelves_hold_their_items();
}

/// And so does one along paths that the tracer leaves as they are.
pub fn passed_calls_go_together<S>()
    ensures { PassedCallsGoTogether S }
{}

/// And so does one that the tracer answers as the kernel with mounts does, writing the same bytes.
pub fn answered_calls_go_together<S>()
    ensures { AnsweredCallsGoTogether S }
{}

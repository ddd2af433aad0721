//! Laws of calls at their stops, each carried by a function that does nothing.
ghost use Rattle.law_edits.specs.Answered.{AnsweredCallsAreNone, PlainCallsAreDecoded};
ghost use Rattle.law_edits.specs.Exits.{ExitsBehindAnswers, ExitsBehindSwaps};
ghost use Rattle.law_edits.specs.Stops.{SwappedCallsAreDecoded};

use pt_tracer::below::{shelves_hold_their_items, texts_are_read_back};

/// Behind the swap of a call's paths the plain kernel finds its request with the new texts.
pub fn swapped_calls_are_decoded()
    ensures { SwappedCallsAreDecoded }
{
    texts_are_read_back();
    shelves_hold_their_items();
}

/// What the kernel makes of a stopped process goes by what is decoded of it.
pub fn plain_calls_are_decoded()
    ensures { PlainCallsAreDecoded }
{}

/// Behind an edit that answers a call the plain kernel finds none.
pub fn answered_calls_are_none()
    ensures { AnsweredCallsAreNone }
{}

/// At the second stop of a call whose paths were swapped its registers are given back.
pub fn exits_behind_swaps()
    ensures { ExitsBehindSwaps }
{}

/// And so they are where it was answered, with that answer.
pub fn exits_behind_answers()
    ensures { ExitsBehindAnswers }
{}

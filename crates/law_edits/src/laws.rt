//! Laws of calls whose paths were swapped, each carried by a function that does nothing.
ghost use Rattle.law_edits.specs.Laws.{SwappedTextsAreDecoded, SwapsAreDecoded};
ghost use Rattle.law_edits.specs.Marking.{ShelvesAreMarked};
ghost use Rattle.law_edits.specs.NoCalls.{NoCallsAreDecoded};
ghost use Rattle.law_edits.specs.Operations.{OperationsAreSame, PathsAreSwapped};
ghost use Rattle.law_edits.specs.Rewriting.{WalksAreSwapped};

use pt_tracer::below::{shelves_hold_their_items, texts_are_read_back};

/// Where the texts of a call's paths are swapped, its request has the new texts.
pub fn swapped_texts_are_decoded()
    ensures { SwappedTextsAreDecoded }
{}

/// And so it has where they stand on the shelf, of which the other machine reads no byte.
pub fn swaps_are_decoded()
    ensures { SwapsAreDecoded }
{
    texts_are_read_back();
    shelves_hold_their_items();
}

/// The paths of a request with other texts have these, and are walked as before.
pub fn paths_are_swapped()
    ensures { PathsAreSwapped }
{}

/// What is told of its paths being the same, a request with other texts comes to the same.
pub fn operations_are_same()
    ensures { OperationsAreSame }
{}

/// Where the number of a call is taken away, none is decoded, and no byte is read.
pub fn no_calls_are_decoded()
    ensures { NoCallsAreDecoded }
{}

/// Where the paths of a call lead somewhere, its edit swaps them for the texts of where they lead.
pub fn walks_are_swapped()
    ensures { WalksAreSwapped }
{}

/// A call with a path marks all bytes of its shelf, where it has one that can be used.
pub fn shelves_are_marked()
    ensures { ShelvesAreMarked }
{}

//! Laws of execve(2) where an identity is told, each carried by a function that does nothing but name laws on which it rests.
ghost use Rattle.law_execves.specs.Told.{FakedExecvesGoTogether, UntoldExecvesGoOn};

use law_stops::below::{shelves_hold_their_items, texts_are_read_back};

/// Where no identity is told, an execve ends alike on both kernels, and a new program begins on both or on none, where the call breaks no calm
/// rule.
pub fn untold_execves_go_on()
    ensures { UntoldExecvesGoOn }
{
    texts_are_read_back();
    shelves_hold_their_items();
}

/// So such a call keeps both machines together with its stops, where the same identity is told on both.
pub fn faked_execves_go_together()
    ensures { FakedExecvesGoTogether }
{
    texts_are_read_back();
    shelves_hold_their_items();
}

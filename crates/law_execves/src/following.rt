//! The law of execve(2) with its stops, carried by a function that does nothing but name laws on which it rests.
ghost use Rattle.law_execves.specs.Following.{ExecvesGoTogether};

use law_stops::below::{shelves_hold_their_items, texts_are_read_back};

/// An execve keeps two machines together, with its stops, where it breaks no calm rule: whether the tracer cancels it, both kernels refuse
/// it, or they put the same program in place of the caller's, be it that of the path or the interpreter of a script.
pub fn execves_go_together<S>()
    ensures { ExecvesGoTogether S }
{
    texts_are_read_back();
    shelves_hold_their_items();
}

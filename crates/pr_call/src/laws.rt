//! Laws of the public call, each carried by a function that does nothing.
ghost use Rattle.pr_call.specs.Telling.{PromisesHoldOfTold};

use law_loosely::below::law_machines::below::sources_that_tell_agree;

/// Where sources tell what they have left, the promises hold of the opening of those bytes.
pub fn promises_hold_of_told()
    ensures { PromisesHoldOfTold }
{
    sources_that_tell_agree();
}

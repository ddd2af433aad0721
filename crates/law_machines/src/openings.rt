//! Laws of what a call begins, each carried by a function that does nothing.
ghost use Rattle.law_machines.specs.Openings.{OpeningsAgree, RefusalsAgree, WordsBeginTraced};

use crate::laws;

/// Words that ask for no generated case, and not for mounts, begin a run on a plain kernel with a tracer.
pub fn words_begin_traced()
    ensures { WordsBeginTraced }
{}

/// Bindings that don't settle are refused with the same answer on both machines.
pub fn refusals_agree()
    ensures { RefusalsAgree }
{}

/// What the same words and sources begin on a plain kernel with a tracer is told as what they begin over mounts, where that run is calm;
/// and where a start whose walks are calm is refused, so is the other one, with the same answer.
pub fn openings_agree()
    ensures { OpeningsAgree }
{
    laws::machines_agree();
    laws::faked_machines_agree();
}

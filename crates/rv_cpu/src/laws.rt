//! Laws of the definitions, each carried by a function that does nothing.
ghost use Rattle.rv_cpu.specs.Laws.{CallsStandInPages, RunsAreAlike, StepsAreAlike};

/// On memories that are equal but for marked bytes an instruction does the same, as long as it reads
/// no marked byte, and leaves them equal but for marked bytes.
pub fn steps_are_alike()
    ensures { StepsAreAlike }
{}

/// So do many instructions.
pub fn runs_are_alike()
    ensures { RunsAreAlike }
{}

/// Instructions that end with a call leave the process at it, in a page, which lies below the last address.
pub fn calls_stand_in_pages()
    ensures { CallsStandInPages }
{}

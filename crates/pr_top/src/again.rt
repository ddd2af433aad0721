//! Laws of the top call, each carried by a function that does nothing.
ghost use Rattle.pr_top.specs.Again.{AreReadAgain};

/// A second call on the listing that a run left begins on its tree: each text names the like there.
pub fn listings_left_are_read_again()
    ensures { AreReadAgain }
{}

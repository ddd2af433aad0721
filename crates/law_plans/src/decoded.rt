//! Laws of what decoding gives, each carried by a function that does nothing.
ghost use Rattle.law_plans.specs.Decoded.{CountsAreDecoded, FirstOfTwoIsDecoded};

/// A call with two paths is decoded with a first one that isn't empty.
pub fn first_of_two_is_decoded()
    ensures { FirstOfTwoIsDecoded }
{}

/// And readlinkat(2) with a positive size.
pub fn counts_are_decoded()
    ensures { CountsAreDecoded }
{}

//! Laws of the definitions, each carried by a function that does nothing.
ghost use Rattle.kr_calls.specs.Decodes.{DecodedAreNumbered, DecodedIsGiven, DecodingsLeavePages};

/// A request that was decoded is one that decoding can give.
pub fn decoded_is_given()
    ensures { DecodedIsGiven }
{}

/// The number in the registers is that of the line of the request that is decoded.
pub fn decoded_are_numbered()
    ensures { DecodedAreNumbered }
{}

/// Decoding reads memory and writes none.
pub fn decodings_leave_pages()
    ensures { DecodingsLeavePages }
{}

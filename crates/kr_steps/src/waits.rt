//! Laws of calls that wait, each carried by a function that does nothing.
ghost use Rattle.kr_steps.specs.Waits.{WaitsAreDecoded, WaitsAreSeen, WaitsLast};

/// Whether a request has to wait is told by the registers that it is decoded from.
pub fn waits_are_decoded()
    ensures { WaitsAreDecoded }
{}

/// A call that comes to wait is seen to wait by its caller's registers.
pub fn waits_are_seen()
    ensures { WaitsAreSeen }
{}

/// A call that came to wait comes to wait again as long as it is seen to wait by its caller's registers.
pub fn waits_last()
    ensures { WaitsLast }
{}

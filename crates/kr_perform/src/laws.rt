//! The law of states that calls leave, carried by a function that does nothing.
ghost use Rattle.kr_perform.specs.Lawful.{PerformedLast};

/// What `perform` leaves of a lawful state is lawful again, want of memory aside, and keeps what lasts: where that lasted before, after
/// fewer than 2^31 calls, the caller's memory holds bytes, and what the call is told of its targets is so.
pub fn performed_states_last<T, const M: u8>()
    ensures { PerformedLast T M }
{}

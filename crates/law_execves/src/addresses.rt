//! The law of the arguments that a tracer keeps of a script's, carried by a function that does nothing.
ghost use Rattle.law_execves.specs.Addresses.{KeptAddressesAreRead};

/// Where both lists of an execve were read, a tracer reads the addresses of the arguments that it keeps.
pub fn kept_addresses_are_read()
    ensures { KeptAddressesAreRead }
{}

//! Laws of an identity that is shown on the first stack of a program, each carried by a function that does nothing.
ghost use Rattle.pt_faker.specs.Started.{AreAsLoaded, ArePut, BeginSo};

/// On a first stack it alters the four numbers, and nothing else.
pub fn numbers_are_put()
    ensures { ArePut }
{}

/// Each program begins with a first stack.
pub fn programs_begin_so()
    ensures { BeginSo }
{}

/// A program that has just been loaded is then as if it had been loaded with the numbers of the identity.
pub fn programs_are_as_loaded()
    ensures { AreAsLoaded }
{}

//! Laws of the definitions, each carried by a function that does nothing.
ghost use Rattle.elf_load.specs.FirstStack.{ArePlaced};

/// Each pair of the auxiliary vector stands at its place among the words of the first stack.
pub fn pairs_are_placed()
    ensures { ArePlaced }
{}

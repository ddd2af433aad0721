//! Laws of lists that stand in a memory, each carried by a function that does nothing.
ghost use Rattle.law_programs.specs.Lists.{KeptAddressesAreAlike, ListsAreCopied, ReadListsStand, StandingListsAreRead};

/// What the kernel has read of both lists of an execve stands in the memory.
pub fn read_lists_stand()
    ensures { ReadListsStand }
{}

/// Lists that stand there, and that are within the limits of a program's, are read.
pub fn standing_lists_are_read()
    ensures { StandingListsAreRead }
{}

/// Where the addresses of a list were copied, with an end behind them, the same texts stand.
pub fn lists_are_copied()
    ensures { ListsAreCopied }
{}

/// The addresses behind the first of a list that was read are the same in a memory that is equal but for marked bytes.
pub fn kept_addresses_are_alike()
    ensures { KeptAddressesAreAlike }
{}

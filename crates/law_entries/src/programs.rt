//! Laws of execve(2), which reads files at its first stop, each carried by a function that does nothing.
ghost use Rattle.law_entries.specs.Lasting.{ExecvePlansLast};
ghost use Rattle.law_entries.specs.Programs.{BytesAreReached, ReachesGoOn};

/// Where the shape of the tree is kept and files have their bytes, the nodes are the same wherever a text leads.
pub fn bytes_are_reached()
    ensures { BytesAreReached }
{}

/// What is reached from tree to tree is reached in the last.
pub fn reaches_go_on()
    ensures { ReachesGoOn }
{}

/// The plan of an execve(2), with all the scripts to which its path leads, lasts.
pub fn execve_plans_last()
    ensures { ExecvePlansLast }
{}

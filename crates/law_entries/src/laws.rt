//! Laws of a tracer's stops, each carried by a function that does nothing.
ghost use Rattle.law_entries.specs.Lasting.{EntriesLast, ExitsGoByOwn, PlansLast};
ghost use Rattle.law_entries.specs.Marking.{TracersMarkNothing};
ghost use Rattle.law_entries.specs.Traced.{TracersAreLocal};

/// The plan of each call but execve(2) lasts.
pub fn plans_last()
    ensures { PlansLast }
{}

/// So a first stop that looked up no name in the process directory is made again.
pub fn entries_last()
    ensures { EntriesLast }
{}

/// A second stop goes by what is the process's own, and by what is kept of it.
pub fn exits_go_by_own()
    ensures { ExitsGoByOwn }
{}

/// A tracer without an identity is local.
pub fn tracers_are_local()
    ensures { TracersAreLocal }
{}

/// At no stop a byte is marked.
pub fn tracers_mark_nothing()
    ensures { TracersMarkNothing }
{}

//! Laws of the definitions, each carried by a function that does nothing.
ghost use Rattle.pt_faker.specs.Stopping.{IsGraph, watching};
ghost use Rattle.pt_tracer.specs.Keeping.{Keeping};
ghost use Rattle.pt_tracer.specs.TracerLaws.{ComeAndGo, EntriesForget, ExitsFollowEntries, OthersStay};
ghost use Rattle.pt_tracer.specs.Watched.{tracer};

use crate::tracer::Tracer;
use pt_faker::Stops;

/// A second stop without a first one changes nothing, and there is one second stop to each first one at most.
pub fn exits_follow_entries()
    ensures { ExitsFollowEntries }
{}

/// A first stop forgets what an earlier one left.
pub fn entries_forget()
    ensures { EntriesForget }
{}

/// What is kept of the processes that a stop, a birth or an end doesn't concern stays.
pub fn others_stay()
    ensures { OthersStay }
{}

/// A child has its parent's tags and identity, and nothing is left of a process that ended.
pub fn come_and_go()
    ensures { ComeAndGo }
{}

/// What the tracer does at the stops, and as processes come and go, are the definition's functions on what it traces: so turns and runs with it
/// are, whatever it remembers.
pub fn tracer_is_its_definition()
    ensures { IsGraph (λ (x : Keeping). x.tracing) (watching ⟦<Tracer as Stops>⟧.enters ⟦<Tracer as Stops>⟧.exits ⟦<Tracer as Stops>⟧.bears ⟦<Tracer as Stops>⟧.forgets) tracer }
{}

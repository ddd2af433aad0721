//! Laws of the definitions, each carried by a function that does nothing.
ghost use Rattle.kr_stops.specs.Watching.{watching};
ghost use Rattle.kr_stops.specs.Watching.{IsGraph};
ghost use Rattle.pt_faker.specs.Faking.{faker};
ghost use Rattle.pt_faker.specs.FakingLaws.{ComeAndGo, EntriesForget, ExitsFollowEntries, OthersStay};

use crate::faker::Faker;
use kr_stops::Stops;

/// A second stop without a first one changes nothing.
pub fn exits_follow_entries()
    ensures { ExitsFollowEntries }
{}

/// A first stop forgets what an earlier one left.
pub fn entries_forget()
    ensures { EntriesForget }
{}

/// What a process does leaves the identities of all others.
pub fn others_stay()
    ensures { OthersStay }
{}

/// A child begins as its parent is, and nothing is left of a process that ended.
pub fn come_and_go()
    ensures { ComeAndGo }
{}

/// What the watcher does at the stops, and as processes come and go, are the definition's functions: so turns and runs with it are.
pub fn faker_is_its_definition()
    ensures { IsGraph (λ x. x) (watching ⟦<Faker as Stops>⟧.enters ⟦<Faker as Stops>⟧.exits ⟦<Faker as Stops>⟧.bears ⟦<Faker as Stops>⟧.forgets) faker }
{}

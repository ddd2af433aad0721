//! Watchers whose stops are functions of a part of what they keep.

use kr_stops::Stops;

/// A watcher whose stops are functions of a part of what it keeps, and of the stopped process. What it keeps beside that part, as what it remembers
/// of walks, shows nowhere.
pub trait Graphed: Stops {
    ghost use Rattle.std.specs.Prelude.{◌≡◌, Bool};
    ghost use Rattle.pt_faker.specs.Stopping.{IsGraph, Stopped, Watcher, watching};

    /// What this part can be.
    ghost Part: { Type 0 };

    ghost part: { Self → Part };

    /// These functions.
    ghost does: { Watcher Part };

    /// Whether a walk for which it asks at a first stop looks up a name in the process directory.
    ghost asked: { Part → Stopped → Bool };

    /// On that part the relations of its stops are their graphs.
    fn is_graph()
        ensures { IsGraph part (watching Self.enters Self.exits Self.bears Self.forgets) does };

    /// That shows in this part.
    ghost asks_by_part: { (x : Self) (t : Stopped) → Self.asks x t ≡ asked (part x) t };
}

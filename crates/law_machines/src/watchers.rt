//! Laws of watchers, each carried by a function that does nothing.
ghost use Rattle.law_machines.specs.Watchers.{FakersWatchBytes, TracersWatchBytes};

/// The watcher of identities leaves bytes at its stops.
pub fn fakers_watch_bytes()
    ensures { FakersWatchBytes }
{}

/// So does the tracer, where the texts of its bindings are bytes.
pub fn tracers_watch_bytes()
    ensures { TracersWatchBytes }
{}

//! How many pages all processes have.
ghost use Rattle.std.specs.Prelude.{◌≡◌, ◌+◌, ◌≤◌};

use std::marker::Model;

/// The most pages that all processes may have.
const ROOM_PAGES: u32 = 262_144;

/// The pages of all processes, counted. Contracts see their number.
#[derive(Drop)]
pub struct Room {
    pages: u32,
}

impl Model for Room {
    ghost use Rattle.std.specs.Prelude.{ℕ, ◌≤◌};

    ghost Value = { ℕ };

    ghost view = { λ r. r.pages };

    ghost invariant = { λ r. r.pages ≤ 262144 };
}

impl Room {
    /// No pages yet.
    pub fn new() -> Room
        ensures { result ≡ 0 }
    {
        Room { pages: 0 }
    }

    /// How many more pages there may be.
    pub fn free(&self) -> u32
        ensures { result + self.now ≡ 262144 }
    {
        ROOM_PAGES - self.pages
    }

    /// Counts pages that were mapped.
    pub(crate) fn add(&mut self, count: u32)
        requires { self.old + count ≤ 262144 }
        ensures { self.new ≡ self.old + count }
    {
        self.pages += count;
    }

    /// Counts pages that were taken away.
    pub(crate) fn remove(&mut self, count: u32)
        requires { count ≤ self.old }
        ensures { self.new + count ≡ self.old }
    {
        self.pages -= count;
    }
}

//! What a run is made by.
ghost use Rattle.std.specs.Prelude.{◌≡◌, ◌≤◌, ◌<◌, ◌^◌};
ghost use Rattle.pr_run.specs.Slots.{IsPlan, slot_of};

use pr_sources::below::{Slot, Slots, User};

/// How many instructions a turn makes at most where no schedule is given.
const FUEL: u32 = 1000;

/// What a run is made by, and how it is told.
#[derive(Drop)]
pub struct Plan {
    /// After how many turns it is over.
    pub turns: u32,
    /// The slots of the turns, which are used in a cycle. Without any, turn `t` picks `t` and makes 1,000 instructions at most.
    pub schedule: Slots,
    /// Whether a last line on the error sink tells if the run was calm.
    pub calm: bool,
    /// The user of the tree, for the listing.
    pub user: User,
}

impl Plan {
    /// The slot of a turn, counted from 0.
    pub(crate) fn slot(&self, turn: u32) -> Slot
        requires { IsPlan self.now }
        ensures slot { record { pick = result.pick; fuel = result.fuel } ≡ slot_of self.now.schedule turn }
        ensures fuel { 1 ≤ result.fuel }
    {
        let slots = self.schedule.as_slice();
        if slots.is_empty() {
            return Slot {
                pick: turn,
                fuel: FUEL,
            };
        }
        slots[turn as usize % slots.len()]
    }
}

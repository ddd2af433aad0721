//! Laws of the definitions, each carried by a function that does nothing.
ghost use Rattle.rv_mem.specs.Actions.{Action, ReadsAlike, AreEqualUnmarked};
ghost use Rattle.rv_mem.specs.Layout.{LayoutsFollow, StayEqualUnmarked};
ghost use Rattle.rv_mem.specs.Pages.{Pages};

/// Memories that are equal but for marked bytes answer an action alike, as long as it reads no
/// marked byte, and stay equal but for marked bytes. Replies of any type are meant.
pub fn actions_read_alike<T>()
    ensures { (action : Action T) → ReadsAlike action }
{}

/// A change of pages does to the layout of a memory what it does to the pages; writing and marking leave it.
pub fn layouts_follow()
    ensures { LayoutsFollow }
{}

/// Memories that are equal but for marked bytes have one layout, and stay equal but for marked bytes where
/// pages of both are mapped, unmapped, given other rights or written. A fork of each has its pages.
pub fn pages_stay_alike()
    ensures { (m w : Pages) → AreEqualUnmarked m w → StayEqualUnmarked m w }
{}

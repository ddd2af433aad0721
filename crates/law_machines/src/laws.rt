//! Laws of both machines, each carried by a function that does nothing.
ghost use Rattle.law_machines.specs.Agreeing.{MachinesAgree};
ghost use Rattle.law_machines.specs.FakedAgreeing.{FakedMachinesAgree};
ghost use Rattle.law_machines.specs.Reports.{ListingsTellNodes, ReportsAreAlike};
ghost use Rattle.law_machines.specs.Turns.{WholeTurnsGoTogether};
ghost use Rattle.law_machines.specs.Watching.{FakersWatch, NobodyWatches};

use law_starts::below::{shelves_hold_their_items, texts_are_read_back};

/// Where no identity is told, a machine with mounts runs as one that nobody watches.
pub fn nobody_watches()
    ensures { NobodyWatches }
{}

/// And where one is told, as one that the watcher of identities watches.
pub fn fakers_watch()
    ensures { FakersWatch }
{}

/// A listing tells the nodes of a tree alone.
pub fn listings_tell_nodes()
    ensures { ListingsTellNodes }
{}

/// Of two runs that come to the same the same is put.
pub fn reports_are_alike<S, T>()
    ensures { ReportsAreAlike S T }
{}

/// A turn of a machine with mounts that breaks no calm rule, and that of the plain one with its tracer, leave both together as they
/// were: without an identity, and with one.
pub fn whole_turns_go_together<S>()
    ensures { WholeTurnsGoTogether S }
{
    texts_are_read_back();
    shelves_hold_their_items();
}

/// A calm run on a kernel with mounts, without an identity, and the run of a plain kernel with a tracer on the same words come to the
/// same: what each turn puts, the end, the status, and the nodes of the tree; and where a start whose walks are calm is refused, so is
/// the other one, with the same error.
pub fn machines_agree()
    ensures { MachinesAgree }
{
    texts_are_read_back();
    shelves_hold_their_items();
}

/// The same where processes are told an identity: a calm run on a kernel with mounts, with the watcher of identities, and the run of a
/// plain kernel with a tracer that tells the same one come to the same.
pub fn faked_machines_agree()
    ensures { FakedMachinesAgree }
{
    texts_are_read_back();
    shelves_hold_their_items();
}

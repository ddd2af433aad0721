//! What happens at the stops of a call.
ghost use Rattle.std.specs.Prelude.{◌≡◌, ℕ, Bool, false, OnOk};
ghost use Rattle.kr_stops.specs.Remembering.{AgreesAt, FreeAgrees, FreesCaller, KeepsAllFree, KeepsOthersFree, LastsWithShape, StillAgrees};
ghost use Rattle.kr_stops.specs.Stopped.{Stopped, IsEdited, unmet_after};

use crate::tracee::Tracee;
use law_lawful::below::NoMemory;

/// A watcher of calls. It is asked at two stops of a call: before the call is carried out, and behind it where its caller goes on.
/// After want of memory both the watcher and what it was lent may only be dropped.
pub trait Stops {
    ghost use Rattle.law_lawful.specs.kr_inode.declared.user.User.{User};
    ghost use Rattle.law_lawful.specs.kr_tree.Tree.{Tree};

    /// What it keeps, and the stopped process, before and after the first stop.
    ghost enters: { Self → Stopped → Self → Stopped → Type 0 };

    /// What it keeps, and the stopped process, before and after the second stop.
    ghost exits: { Self → Stopped → Self → Stopped → Type 0 };

    /// What it keeps as a process makes a child.
    ghost bears: { Self → ℕ → ℕ → Self → Type 0 };

    /// What it keeps as a process ends.
    ghost forgets: { Self → ℕ → Self → Type 0 };

    /// Whether a peek at the first stop looks up a name in the process directory, by what it keeps and the stopped process before.
    ghost asks: { Self → Stopped → Bool };

    /// What it keeps agrees with a tree, as a user walks it: whatever it remembers of walks is so there.
    ghost agrees: { Self → Tree → User → Type 0 };

    /// What it keeps is free for a process, whose call may make another tree of it.
    ghost is_free: { Self → ℕ → Type 0 };

    /// A call is about to be carried out. At most the registers and the bytes of the memory of its process are changed. Where the registers that
    /// are left hold a call that can alter the shape of the tree, what is kept is free for the process till its next stop. The second stop makes
    /// no peek that looks up a name in the process directory.
    fn entry<T: Tracee>(&mut self, t: &mut T) -> Result<(), NoMemory>
        requires agrees { AgreesAt agrees self.old (T.stopped t.old) }
        ensures enters { OnOk result (enters self.old (T.stopped t.old) self.new (T.stopped t.new)) }
        ensures edits { IsEdited (T.stopped t.old) (T.stopped t.new) }
        ensures rest { (T.around t.new).0 ≡ (T.around t.old).0 }
        ensures asks { OnOk result ((T.around t.new).1 ≡ unmet_after (asks self.old (T.stopped t.old)) (T.around t.old).1) }
        ensures agrees { OnOk result (AgreesAt agrees self.new (T.stopped t.new)) }
        ensures frees { OnOk result (FreesCaller is_free (T.stopped t.new) self.new) }
        ensures others { OnOk result (KeepsOthersFree is_free (T.stopped t.old).pid self.old self.new) };

    /// A call was carried out, and its caller was told what it answers, or begins a new program.
    fn exit<T: Tracee>(&mut self, t: &mut T) -> Result<(), NoMemory>
        requires agrees { AgreesAt agrees self.old (T.stopped t.old) }
        ensures exits { OnOk result (exits self.old (T.stopped t.old) self.new (T.stopped t.new)) }
        ensures edits { IsEdited (T.stopped t.old) (T.stopped t.new) }
        ensures rest { T.around t.new ≡ T.around t.old }
        ensures agrees { OnOk result (AgreesAt agrees self.new (T.stopped t.new)) }
        ensures others { OnOk result (KeepsOthersFree is_free (T.stopped t.old).pid self.old self.new) };

    /// A process made a child.
    fn born(&mut self, parent: u32, child: u32) -> Result<(), NoMemory>
        ensures bears { OnOk result (bears self.old parent child self.new) }
        ensures agrees { OnOk result (StillAgrees agrees self.old self.new) }
        ensures free { OnOk result (KeepsAllFree is_free self.old self.new) };

    /// A process ended.
    fn gone(&mut self, pid: u32)
        ensures forgets { forgets self.old pid self.new }
        ensures agrees { StillAgrees agrees self.old self.new }
        ensures others { KeepsOthersFree is_free pid self.old self.new };

    /// What is free for a process agrees with every tree.
    ghost free_agrees: { FreeAgrees agrees is_free };

    /// Agreement lasts where the tree keeps its shape.
    ghost lasts_with_shape: { LastsWithShape agrees };
}

/// Nobody watches.
#[derive(Clone, Copy)]
pub struct Unwatched;

impl Stops for Unwatched {
    ghost enters = { λ x t y u. (y ≡ x) × (u ≡ t) };

    ghost exits = { λ x t y u. (y ≡ x) × (u ≡ t) };

    ghost bears = { λ x parent child y. y ≡ x };

    ghost forgets = { λ x pid y. y ≡ x };

    ghost asks = { λ x t. false };

    ghost agrees = { λ x t user. Unit {0} };

    ghost is_free = { λ x pid. Unit {0} };

    fn entry<T: Tracee>(&mut self, t: &mut T) -> Result<(), NoMemory> {
        // For the proof alone: the process lives.
        let _pid = t.pid();
        Ok(())
    }

    fn exit<T: Tracee>(&mut self, t: &mut T) -> Result<(), NoMemory> {
        // For the proof alone: the process lives.
        let _pid = t.pid();
        Ok(())
    }

    fn born(&mut self, _parent: u32, _child: u32) -> Result<(), NoMemory> {
        Ok(())
    }

    fn gone(&mut self, _pid: u32) {}

    ghost free_agrees = { λ x pid free t user. tt };

    ghost lasts_with_shape = { λ x t u user sound shape before. tt };
}

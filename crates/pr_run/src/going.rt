//! What goes on by slots, one after the other: a kernel, turn by turn, or step by step.
ghost use Rattle.std.specs.Prelude.{◌≡◌, ◌≤◌, ◌<◌, ◌^◌, ℕ, suc, true, [], IfOk, OnOk};
ghost use Rattle.kr_loose.specs.kr_core.Kernel.{machine, machine_by};
ghost use Rattle.kr_loose.specs.kr_turns.Run.{Put, put_by};
ghost use Rattle.pt_tracer.specs.kr_stops.Watching.{watching};
ghost use Rattle.pr_run.specs.Going.{Going, GoesTo, Since, by_steps, by_turns, or_spent};
ghost use Rattle.pr_run.specs.Puts.{GoesOn, IsBetweenTurns, MakesTurn, end_told};
ghost use Rattle.pr_run.specs.Stepping.{MakesStep, StandsSince, StepsOn};

use crate::laws::{parts_step, parts_turn};
use crate::turns::{End, end_after};
use kr_loose::Loose;
use kr_loose::below::{Kernel, Places, Turned};
use pr_sources::below::{NoMemory, Slot};
use pt_tracer::Graphed;

/// What goes on by slots. A loop over its slots needs to know no more of it.
pub(crate) trait Goes {
    /// What a run says of it, with what only proofs know.
    ghost Run: { Type 0 };

    /// It is such.
    ghost stands_for: { Self → Run → Type 0 };

    /// What of it stays as it goes on.
    ghost Fixed: { Type 0 };

    ghost fixed: { Self → Fixed };

    /// How such a one goes on, by what stays.
    ghost going: { Fixed → Going Run };

    /// The bytes that it put out.
    ghost written: { Self → Put };

    /// A count that a slot raises by one at most.
    ghost made: { Self → ℕ };

    /// So it is but after want of memory.
    ghost is_whole: { Self → Type 0 };

    /// Goes on by a slot, where it can. After want of memory it may only be dropped.
    fn go(&mut self, slot: Slot) -> Result<Turned, NoMemory>
        requires whole { is_whole self.old }
        requires fuel { 1 ≤ slot.fuel }
        requires few { made self.old < 2 ^ 31 }
        ensures goes { IfOk result (λ turned. (x : Run) → stands_for self.old x → GoesTo (going (fixed self.old)) slot x (stands_for self.new) turned) }
        ensures whole { OnOk result (is_whole self.new) }
        ensures fixed { OnOk result (fixed self.new ≡ fixed self.old) }
        ensures made { OnOk result (made self.new ≤ suc (made self.old)) };

    /// The bytes that were put out since they were forgotten.
    fn out(&self) -> &[u8]
        ensures { result.now ≡ (written self.now).out };

    /// Those that were put out as errors.
    fn err(&self) -> &[u8]
        ensures { result.now ≡ (written self.now).err };

    /// Forgets the bytes that were put out.
    fn clear_bytes(&mut self)
        ensures forgets { (x : Run) → stands_for self.old x → stands_for self.new ((going (fixed self.old)).forgets x) }
        ensures whole { is_whole self.old → is_whole self.new }
        ensures fixed { fixed self.new ≡ fixed self.old }
        ensures made { made self.new ≡ made self.old };

    /// How it ends where no slot is left.
    fn end(&self) -> End
        requires { is_whole self.now }
        ensures { (x : Run) → stands_for self.now x → end_told result ≡ or_spent ((going (fixed self.now)).ending x) };

    /// The bytes are those of what it is.
    ghost is_written: { (t : Self) (x : Run) → stands_for t x → (going (fixed t)).put x ≡ written t };
}

/// Makes a turn, where one can be made.
fn make_turn<P: Places, S: Graphed, const M: u8>(
    kernel: &mut Kernel<P, S, M>,
    slot: Slot,
) -> Result<Turned, NoMemory>
    requires whole { kernel.old.whole ≡ true }
    requires running { kernel.old.paused ≡ [] }
    requires fuel { 1 ≤ slot.fuel }
    requires few { kernel.old.turns < 2 ^ 31 }
    requires few_calls { kernel.old.calls < 2 ^ 31 }
    ensures makes { IfOk result (MakesTurn S.does M (P.mounts kernel.old.places) slot (machine_by P.number S.part kernel.old) (machine_by P.number S.part kernel.new)) }
    ensures goes_on { IfOk result (λ turned. GoesOn turned kernel.old kernel.new) }
{
    parts_turn::<S>();
    S::is_graph();
    match kernel.turn(slot.pick, slot.fuel) {
        Ok(Turned::Ran) => {}
        Ok(Turned::Deadlock) => return Ok(Turned::Deadlock),
        Ok(Turned::Over) => return Ok(Turned::Over),
        Err(no_memory) => return Err(no_memory),
    }
    Ok(Turned::Ran)
}

/// A kernel goes on by turns.
impl<P: Places, S: Graphed, const M: u8> Goes for Kernel<P, S, M> {
    ghost use Rattle.std.proofs.Common.{ap};
    ghost use Rattle.kr_loose.specs.kr_turns.Turn.{Machine};

    ghost Run = { Machine S.Part };

    ghost stands_for = { λ t m. m ≡ machine_by P.number S.part t };

    ghost Fixed = { P };

    ghost fixed = { λ t. t.places };

    ghost going = { λ places. by_turns S.does M (P.mounts places) };

    ghost written = { λ t. put_by (machine P.number t) };

    ghost made = { λ t. t.turns };

    ghost is_whole = { λ t. IsBetweenTurns t };

    fn go(&mut self, slot: Slot) -> Result<Turned, NoMemory> {
        make_turn(self, slot)
    }

    fn out(&self) -> &[u8] {
        Kernel::out(self)
    }

    fn err(&self) -> &[u8] {
        Kernel::err(self)
    }

    fn clear_bytes(&mut self) {
        Kernel::clear_bytes(self);
    }

    fn end(&self) -> End {
        end_after(self)
    }

    ghost is_written = { λ t m is. ap (λ n. put_by n) is };
}

/// Makes a step, where one can be made.
fn make_step<P: Places, S: Graphed, const M: u8>(
    loose: &mut Loose<P, S, M>,
    slot: Slot,
) -> Result<Turned, NoMemory>
    requires whole { loose.old.kernel.whole ≡ true }
    requires fuel { 1 ≤ slot.fuel }
    requires few { loose.old.kernel.calls < 2 ^ 31 }
    ensures makes { IfOk result (MakesStep P.number (watching S.enters S.exits S.bears S.forgets) S.asks (P.mounts loose.old.kernel.places) slot loose.old.kernel loose.new.kernel loose.old.judge loose.new.judge) }
    ensures on { OnOk result (StepsOn loose.old.kernel loose.new.kernel) }
{
    match loose.step(slot.pick, slot.fuel) {
        Ok(Turned::Ran) => {}
        Ok(Turned::Deadlock) => return Ok(Turned::Deadlock),
        Ok(Turned::Over) => return Ok(Turned::Over),
        Err(no_memory) => return Err(no_memory),
    }
    Ok(Turned::Ran)
}

/// And a loose run by steps.
impl<P: Places, S: Graphed, const M: u8> Goes for Loose<P, S, M> {
    ghost use Rattle.std.proofs.Common.{ap};

    ghost Run = { Since S.Part };

    ghost stands_for = { λ t. StandsSince P.number S.part S.asks (P.mounts t.kernel.places) t.kernel t.judge };

    ghost Fixed = { P };

    ghost fixed = { λ t. t.kernel.places };

    ghost going = { λ places. by_steps S.does M (P.mounts places) };

    ghost written = { λ t. put_by (machine P.number t.kernel) };

    ghost made = { λ t. t.kernel.calls };

    ghost is_whole = { λ t. t.kernel.whole ≡ true };

    fn go(&mut self, slot: Slot) -> Result<Turned, NoMemory> {
        parts_step::<S>();
        S::is_graph();
        make_step(self, slot)
    }

    fn out(&self) -> &[u8] {
        self.kernel().out()
    }

    fn err(&self) -> &[u8] {
        self.kernel().err()
    }

    fn clear_bytes(&mut self) {
        Loose::clear_bytes(self);
    }

    fn end(&self) -> End {
        end_after(self.kernel())
    }

    ghost is_written = { λ t x stands. ap (λ l. put_by l.machine) stands.same };
}

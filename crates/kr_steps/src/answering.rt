//! What becomes of the caller of a call.
ghost use Rattle.std.specs.Prelude.{◌≡◌, ℕ, List};
ghost use Rattle.kr_perform.specs.Calling.{Runs};
ghost use Rattle.kr_perform.specs.kr_ops.Meaning.{meaning};
ghost use Rattle.kr_perform.specs.kr_ops.Sound.{IsSound};
ghost use Rattle.kr_steps.specs.Answering.{answered, resumed, waiting};
ghost use Rattle.kr_perform.specs.kr_view.View.{Row};

use kr_perform::below::State;

/// The register of a call's answer.
const A0: usize = 10;

/// How many bytes an instruction has.
const INSTRUCTION: u64 = 4;

/// Tells a process the answer of the call at which it stands, behind which it then goes on; one that doesn't live is told nothing.
pub fn answer<T: Copy, const M: u8>(state: &mut State<T, M>, pid: u32, value: i64)
    requires { IsSound state.old }
    ensures answers { meaning state.new ≡ answered pid value (meaning state.old) }
    ensures runs { (number : T → ℕ) (table : List Row) (calls : ℕ) → Runs number table calls state.old → Runs number table calls state.new }
{
    if let Some(k) = state.index_of(pid) {
        let process = &mut state.living[k];
        process.regs.x[A0] = value.cast_unsigned();
        process.regs.pc = process.regs.pc.wrapping_add(INSTRUCTION);
        process.waits = false;
    }
}

/// Lets a process stay at a call that waits.
pub fn stay<T: Copy, const M: u8>(state: &mut State<T, M>, pid: u32)
    requires { IsSound state.old }
    ensures stays { meaning state.new ≡ waiting pid (meaning state.old) }
    ensures runs { (number : T → ℕ) (table : List Row) (calls : ℕ) → Runs number table calls state.old → Runs number table calls state.new }
{
    if let Some(k) = state.index_of(pid) {
        let process = &mut state.living[k];
        process.waits = true;
    }
}

/// Lets a process go on that stayed at a call.
pub fn resume<T: Copy, const M: u8>(state: &mut State<T, M>, pid: u32)
    requires { IsSound state.old }
    ensures resumes { meaning state.new ≡ resumed pid (meaning state.old) }
    ensures runs { (number : T → ℕ) (table : List Row) (calls : ℕ) → Runs number table calls state.old → Runs number table calls state.new }
{
    if let Some(k) = state.index_of(pid) {
        let process = &mut state.living[k];
        process.waits = false;
    }
}

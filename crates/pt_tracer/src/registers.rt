//! The registers of a call on RISC-V at its stops.
ghost use Rattle.std.specs.Prelude.{◌≡◌, ◌<◌};
ghost use Rattle.pt_faker.specs.Stopping.{with_register, OnlyEdits};
ghost use Rattle.pt_tracer.specs.Registers.{arguments_at, given_back, is_register, with_argument, with_arguments};

use pt_faker::Tracee;

/// a0, which has the first argument, and then the answer.
pub(crate) const A0: u8 = 10;

const A1: u8 = 11;

/// a2, which has the third one.
pub(crate) const A2: u8 = 12;

const A3: u8 = 13;

const A4: u8 = 14;

const A5: u8 = 15;

/// a7, which has the number of a call.
pub(crate) const A7: u8 = 17;

/// What a caller passes beside its first argument, by the names of the registers.
#[derive(Clone, Copy)]
pub struct Arguments {
    pub a1: u64,
    pub a2: u64,
    pub a3: u64,
    pub a4: u64,
    pub a5: u64,
    pub a7: u64,
}

impl Arguments {
    /// What stands in the registers of a process.
    pub(crate) fn of<T: Tracee>(t: &T) -> Arguments
        ensures { result ≡ arguments_at (T.stopped t.now) }
    {
        Arguments {
            a1: t.reg(A1),
            a2: t.reg(A2),
            a3: t.reg(A3),
            a4: t.reg(A4),
            a5: t.reg(A5),
            a7: t.reg(A7),
        }
    }

    /// Gives the registers back.
    pub(crate) fn give_back<T: Tracee>(self, t: &mut T)
        ensures back { T.stopped t.new ≡ given_back self (T.stopped t.old) }
        ensures edits { OnlyEdits T.stopped T.around t.old t.new }
    {
        set(t, A1, self.a1);
        set(t, A2, self.a2);
        set(t, A3, self.a3);
        set(t, A4, self.a4);
        set(t, A5, self.a5);
        set(t, A7, self.a7);
    }
}

/// Gives a register another value.
pub(crate) fn set<T: Tracee>(t: &mut T, k: u8, value: u64)
    requires first { 0 < k }
    requires last { k < 32 }
    ensures set { T.stopped t.new ≡ with_register k value (T.stopped t.old) }
    ensures edits { OnlyEdits T.stopped T.around t.old t.new }
{
    // For the proof alone: the process lives.
    let _pid = t.pid();
    t.set_reg(k, value);
}

/// Whether this is the number of a register.
fn is_register(k: u8) -> bool
    ensures { result ≡ is_register k }
{
    0 < k && k < 32
}

/// Gives registers other values, by their numbers.
pub(crate) fn set_all<T: Tracee>(t: &mut T, registers: &[(u8, u64)])
    ensures set { T.stopped t.new ≡ with_arguments registers.now (T.stopped t.old) }
    ensures edits { OnlyEdits T.stopped T.around t.old t.new }
{
    // For the proof alone: the process lives.
    let _pid = t.pid();
    let Some(((k, value), others)) = registers.split_first() else {
        return;
    };
    set_one(t, *k, *value);
    set_all(t, others);
}

/// Gives a register another value, if there is one of this number.
fn set_one<T: Tracee>(t: &mut T, k: u8, value: u64)
    ensures set { T.stopped t.new ≡ with_argument (k, value) (T.stopped t.old) }
    ensures edits { OnlyEdits T.stopped T.around t.old t.new }
{
    // For the proof alone: the process lives.
    let _pid = t.pid();
    if is_register(k) {
        set(t, k, value);
    }
}

//! The atomic instructions, on a doubleword where they are wide, and else on a word. Each kills by SIGBUS
//! where its address isn't divisible by its width, whatever may be done there.
ghost use Rattle.std.specs.Prelude.{◌≡◌, IfOk, Some, None};
ghost use Rattle.rv_mem.specs.Actions.{carried_out};
ghost use Rattle.rv_mem.specs.Memory.{page_count};
ghost use Rattle.rv_cpu.specs.Amos as amos;
ghost use Rattle.rv_cpu.specs.Step as spec;
ghost use Rattle.rv_cpu.specs.Step.{register, lowest_bytes, reserves, stores_if_held, replaces, Leaves, IsLowSignal, IfStopped};

use crate::arithmetic::{add, extend, low, max, maxu, maxuw, maxw, min, minu, minuw, minw};
use crate::event::Event;
use crate::load::number_at;
use crate::registers::{bytes, get, set_and_move_on};
use crate::reservation::{Held, is_held};
use rv_mem::below::pr_base::NoMemory;
use rv_mem::{Regs, Space, StoreFault, Use};

/// What an AMO makes of the number in memory and of that of a register.
#[derive(Clone, Copy)]
pub enum Amo {
    Swap,
    Add,
    Xor,
    And,
    Or,
    Min,
    Max,
    MinUnsigned,
    MaxUnsigned,
}

/// How many bytes it is.
fn width(wide: bool) -> u64
    ensures { result ≡ spec.width wide }
{
    if wide { 8 } else { 4 }
}

/// What a register gets of the number that the bytes hold.
fn widened(wide: bool, n: u64) -> u64
    ensures { result ≡ spec.widened wide n }
{
    if wide { n } else { extend(low(n)) }
}

/// The number whose lowest bytes an AMO stores.
fn combined(op: Amo, wide: bool, old: u64, value: u64) -> u64
    ensures { result ≡ amos.combined op wide old value }
{
    match (op, wide) {
        (Amo::Swap, _) => value,
        (Amo::Add, _) => add(old, value),
        (Amo::Xor, _) => old ^ value,
        (Amo::And, _) => old & value,
        (Amo::Or, _) => old | value,
        (Amo::Min, true) => min(old, value),
        (Amo::Min, false) => minw(old, value),
        (Amo::Max, true) => max(old, value),
        (Amo::Max, false) => maxw(old, value),
        (Amo::MinUnsigned, true) => minu(old, value),
        (Amo::MinUnsigned, false) => minuw(old, value),
        (Amo::MaxUnsigned, true) => maxu(old, value),
        (Amo::MaxUnsigned, false) => maxuw(old, value),
    }
}

/// LR: a load that reserves its bytes. It kills by SIGSEGV where a byte isn't readable.
#[inline(never)]
pub fn load_reserved<const M: u8>(
    regs: &mut Regs,
    mem: &mut Space<M>,
    held: &mut Option<Held>,
    wide: bool,
    rd: u8,
    rs1: u8,
) -> Event
    ensures leaves { let action = reserves regs.old held.old wide rd (register regs.old rs1) in
        Leaves (carried_out action mem.old) result regs.new held.new mem.new }
    ensures signal { IsLowSignal result }
    ensures kept { IfStopped result ((regs.new ≡ regs.old) × (mem.new.pages ≡ mem.old.pages)) }
    ensures count { page_count mem.new.pages ≡ page_count mem.old.pages }
{
    let at = get(regs, rs1);
    if at % width(wide) != 0 {
        return Event::Killed(7);
    }
    let Some(value) = number_at(mem, wide, at) else {
        return Event::Killed(11);
    };
    *held = Some(Held { at, wide });
    set_and_move_on(regs, rd, widened(wide, value));
    Event::Next
}

/// SC: a store that gives 0, where its bytes are reserved; it kills by SIGSEGV where one of them isn't
/// writable. Elsewhere it looks at no byte and gives 1. Nothing is reserved afterwards.
#[inline(never)]
pub fn store_conditional<const M: u8>(
    regs: &mut Regs,
    mem: &mut Space<M>,
    held: &mut Option<Held>,
    wide: bool,
    rd: u8,
    rs1: u8,
    rs2: u8,
) -> Result<Event, NoMemory>
    ensures leaves { let at = register regs.old rs1 in
        let action = stores_if_held regs.old held.old wide rd at (lowest_bytes (spec.width wide) (register regs.old rs2)) in
        IfOk result (λ event. Leaves (carried_out action mem.old) event regs.new held.new mem.new) }
    ensures signal { IfOk result (λ event. IsLowSignal event) }
    ensures kept { IfOk result (λ event. IfStopped event ((regs.new ≡ regs.old) × (mem.new.pages ≡ mem.old.pages))) }
    ensures count { page_count mem.new.pages ≡ page_count mem.old.pages }
{
    let at = get(regs, rs1);
    if at % width(wide) != 0 {
        return Ok(Event::Killed(7));
    }
    if !is_held(*held, wide, at) {
        *held = None;
        set_and_move_on(regs, rd, 1);
        return Ok(Event::Next);
    }
    match mem.write(at, &bytes(regs, rs2)[..width(wide) as usize]) {
        Ok(()) => {
            *held = None;
            set_and_move_on(regs, rd, 0);
            Ok(Event::Next)
        }
        Err(StoreFault::BadAddress) => Ok(Event::Killed(11)),
        Err(StoreFault::NoMemory) => Err(NoMemory),
    }
}

/// An AMO: gives the number that the bytes hold, and stores in them what it makes of it. It kills by
/// SIGSEGV where a byte isn't readable or isn't writable.
#[inline(never)]
pub fn replace<const M: u8>(
    regs: &mut Regs,
    mem: &mut Space<M>,
    op: Amo,
    wide: bool,
    rd: u8,
    rs1: u8,
    rs2: u8,
) -> Result<Event, NoMemory>
    ensures leaves { (held : _) → let at = register regs.old rs1 in
        let action = replaces regs.old held wide rd at (register regs.old rs2) (amos.combined op wide) in
        IfOk result (λ event. Leaves (carried_out action mem.old) event regs.new held mem.new) }
    ensures signal { IfOk result (λ event. IsLowSignal event) }
    ensures kept { IfOk result (λ event. IfStopped event ((regs.new ≡ regs.old) × (mem.new.pages ≡ mem.old.pages))) }
    ensures count { page_count mem.new.pages ≡ page_count mem.old.pages }
{
    let at = get(regs, rs1);
    if at % width(wide) != 0 {
        return Ok(Event::Killed(7));
    }
    // Both rights are tested before a byte is read.
    if !mem.can(at, width(wide), Use::Write) {
        return Ok(Event::Killed(11));
    }
    let Some(old) = number_at(mem, wide, at) else {
        return Ok(Event::Killed(11));
    };
    let new = combined(op, wide, old, get(regs, rs2)).to_le_bytes();
    match mem.write(at, &new[..width(wide) as usize]) {
        Ok(()) => {
            set_and_move_on(regs, rd, widened(wide, old));
            Ok(Event::Next)
        }
        Err(StoreFault::BadAddress) => Ok(Event::Killed(11)),
        Err(StoreFault::NoMemory) => Err(NoMemory),
    }
}

//! The ways in which an instruction ends.
ghost use Rattle.std.specs.Prelude.{◌≡◌, IfOk};
ghost use Rattle.rv_mem.specs.Actions.{carried_out};
ghost use Rattle.rv_mem.specs.Memory.{page_count};
ghost use Rattle.rv_cpu.specs.Loads.{size, extended};
ghost use Rattle.rv_cpu.specs.Step.{address, lowest_bytes, moved_on, register, gives, jumps, branches, loads, stores, Leaves, IsLowSignal, IfStopped};

use crate::arithmetic::{add, of_immediate};
use crate::event::Event;
use crate::load::{Load, loaded};
use crate::registers::{address, bytes, move_on, set, set_and_move_on};
use rv_mem::below::pr_base::NoMemory;
use rv_mem::{Regs, Space, StoreFault};

/// On to the next instruction.
#[inline(always)]
pub fn pass(regs: &mut Regs) -> Event
    ensures event { result ≡ Event.Next }
    ensures regs { regs.new ≡ moved_on regs.old }
    ensures signal { IsLowSignal result }
    ensures kept { IfStopped result (regs.new ≡ regs.old) }
{
    move_on(regs);
    Event::Next
}

/// A register takes a value.
#[inline(always)]
pub fn give(regs: &mut Regs, rd: u8, value: u64) -> Event
    ensures event { result ≡ (gives regs.old rd value).event }
    ensures regs { regs.new ≡ (gives regs.old rd value).regs }
    ensures signal { IsLowSignal result }
    ensures kept { IfStopped result (regs.new ≡ regs.old) }
{
    set_and_move_on(regs, rd, value);
    Event::Next
}

/// A jump: to an address that isn't divisible by 4 it kills by SIGBUS.
#[inline(always)]
pub fn jump(regs: &mut Regs, rd: u8, target: u64) -> Event
    ensures event { result ≡ (jumps regs.old rd target).event }
    ensures regs { regs.new ≡ (jumps regs.old rd target).regs }
    ensures signal { IsLowSignal result }
    ensures kept { IfStopped result (regs.new ≡ regs.old) }
{
    if target % 4 != 0 {
        return Event::Killed(7);
    }
    let next = add(regs.pc, 4);
    set(regs, rd, next);
    regs.pc = target;
    Event::Next
}

/// A branch: one that is taken to an address that isn't divisible by 4 kills by SIGBUS.
#[inline(always)]
pub fn branch(regs: &mut Regs, taken: bool, imm: i32) -> Event
    ensures event { result ≡ (branches regs.old taken imm).event }
    ensures regs { regs.new ≡ (branches regs.old taken imm).regs }
    ensures signal { IsLowSignal result }
    ensures kept { IfStopped result (regs.new ≡ regs.old) }
{
    if !taken {
        return pass(regs);
    }
    let target = add(regs.pc, of_immediate(imm));
    if target % 4 != 0 {
        return Event::Killed(7);
    }
    regs.pc = target;
    Event::Next
}

/// A load from the address of a register and an immediate: it kills by SIGSEGV where a byte isn't
/// readable.
#[inline(always)]
pub fn load<const M: u8>(
    regs: &mut Regs,
    mem: &mut Space<M>,
    load: Load,
    rd: u8,
    rs1: u8,
    imm: i32,
) -> Event
    ensures leaves { (held : _) → let action = loads regs.old held rd (address regs.old rs1 imm) (size load) (extended load) in
        Leaves (carried_out action mem.old) result regs.new held mem.new }
    ensures signal { IsLowSignal result }
    ensures kept { IfStopped result ((regs.new ≡ regs.old) × (mem.new.pages ≡ mem.old.pages)) }
    ensures count { page_count mem.new.pages ≡ page_count mem.old.pages }
{
    match loaded(mem, address(regs, rs1, imm), load) {
        Some(value) => {
            set_and_move_on(regs, rd, value);
            Event::Next
        }
        None => Event::Killed(11),
    }
}

/// A store to the address of a register and an immediate: it kills by SIGSEGV where a byte isn't
/// writable.
#[inline(always)]
fn store<const M: u8>(
    regs: &mut Regs,
    mem: &mut Space<M>,
    rs1: u8,
    imm: i32,
    bytes: &[u8],
) -> Result<Event, NoMemory>
    ensures leaves { (held : _) → let action = stores regs.old held (address regs.old rs1 imm) bytes.now in
        IfOk result (λ event. Leaves (carried_out action mem.old) event regs.new held mem.new) }
    ensures signal { IfOk result (λ event. IsLowSignal event) }
    ensures kept { IfOk result (λ event. IfStopped event ((regs.new ≡ regs.old) × (mem.new.pages ≡ mem.old.pages))) }
    ensures count { page_count mem.new.pages ≡ page_count mem.old.pages }
{
    match mem.write(address(regs, rs1, imm), bytes) {
        Ok(()) => {
            move_on(regs);
            Ok(Event::Next)
        }
        Err(StoreFault::BadAddress) => Ok(Event::Killed(11)),
        Err(StoreFault::NoMemory) => Err(NoMemory),
    }
}

/// Stores the lowest byte of a register.
#[inline(always)]
pub fn store_byte<const M: u8>(
    regs: &mut Regs,
    mem: &mut Space<M>,
    rs1: u8,
    rs2: u8,
    imm: i32,
) -> Result<Event, NoMemory>
    ensures leaves { (held : _) → let action = stores regs.old held (address regs.old rs1 imm) (lowest_bytes 1 (register regs.old rs2)) in
        IfOk result (λ event. Leaves (carried_out action mem.old) event regs.new held mem.new) }
    ensures signal { IfOk result (λ event. IsLowSignal event) }
    ensures kept { IfOk result (λ event. IfStopped event ((regs.new ≡ regs.old) × (mem.new.pages ≡ mem.old.pages))) }
    ensures count { page_count mem.new.pages ≡ page_count mem.old.pages }
{
    store(regs, mem, rs1, imm, &bytes(regs, rs2)[..1])
}

/// Stores the two lowest bytes of a register.
#[inline(always)]
pub fn store_half<const M: u8>(
    regs: &mut Regs,
    mem: &mut Space<M>,
    rs1: u8,
    rs2: u8,
    imm: i32,
) -> Result<Event, NoMemory>
    ensures leaves { (held : _) → let action = stores regs.old held (address regs.old rs1 imm) (lowest_bytes 2 (register regs.old rs2)) in
        IfOk result (λ event. Leaves (carried_out action mem.old) event regs.new held mem.new) }
    ensures signal { IfOk result (λ event. IsLowSignal event) }
    ensures kept { IfOk result (λ event. IfStopped event ((regs.new ≡ regs.old) × (mem.new.pages ≡ mem.old.pages))) }
    ensures count { page_count mem.new.pages ≡ page_count mem.old.pages }
{
    store(regs, mem, rs1, imm, &bytes(regs, rs2)[..2])
}

/// Stores the four lowest bytes of a register.
#[inline(always)]
pub fn store_word<const M: u8>(
    regs: &mut Regs,
    mem: &mut Space<M>,
    rs1: u8,
    rs2: u8,
    imm: i32,
) -> Result<Event, NoMemory>
    ensures leaves { (held : _) → let action = stores regs.old held (address regs.old rs1 imm) (lowest_bytes 4 (register regs.old rs2)) in
        IfOk result (λ event. Leaves (carried_out action mem.old) event regs.new held mem.new) }
    ensures signal { IfOk result (λ event. IsLowSignal event) }
    ensures kept { IfOk result (λ event. IfStopped event ((regs.new ≡ regs.old) × (mem.new.pages ≡ mem.old.pages))) }
    ensures count { page_count mem.new.pages ≡ page_count mem.old.pages }
{
    store(regs, mem, rs1, imm, &bytes(regs, rs2)[..4])
}

/// Stores the bytes of a register.
#[inline(always)]
pub fn store_double<const M: u8>(
    regs: &mut Regs,
    mem: &mut Space<M>,
    rs1: u8,
    rs2: u8,
    imm: i32,
) -> Result<Event, NoMemory>
    ensures leaves { (held : _) → let action = stores regs.old held (address regs.old rs1 imm) (lowest_bytes 8 (register regs.old rs2)) in
        IfOk result (λ event. Leaves (carried_out action mem.old) event regs.new held mem.new) }
    ensures signal { IfOk result (λ event. IsLowSignal event) }
    ensures kept { IfOk result (λ event. IfStopped event ((regs.new ≡ regs.old) × (mem.new.pages ≡ mem.old.pages))) }
    ensures count { page_count mem.new.pages ≡ page_count mem.old.pages }
{
    store(regs, mem, rs1, imm, &bytes(regs, rs2))
}

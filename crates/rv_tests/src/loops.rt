ghost use Rattle.std.specs.Prelude.{◌≡◌, ◌+◌, ◌≤◌, IsTrue, true, false};
ghost use Rattle.rv_loops.specs.rv_table.Encoding.{IsValid};
ghost use Rattle.rv_loops.specs.rv_mem.Pages.{allows_all, any_marked, bytes_from};
ghost use Rattle.rv_loops.specs.rv_asm.Assembly.{word};
ghost use Rattle.rv_loops.specs.Loops.{CanPass};

use rv_loops::below::{Asm, Event, Instr, Regs, Rights, Room, Space, Use, encode};
use rv_loops::{LoopOp, LoopRegs, put, turn};
use std::test::Fail;

/// Where the doubleword lies on which the loop works.
const CELL: u64 = 0x1800;

const ALL: Rights = Rights {
    r: true,
    w: true,
    x: true,
};

const REGS: LoopRegs = LoopRegs {
    rd: 10,
    rs1: 11,
    rs2: 12,
    value: 13,
    failed: 14,
};

/// Whether an instruction stands at an address, readable as code, without a mark, and before the cell.
fn stands(mem: &mut Space<1>, at: u64, i: Instr, cell: u64) -> bool
    requires { IsValid i }
    ensures pages { mem.new.pages ≡ mem.old.pages }
    ensures code { IsTrue result → (allows_all mem.old.pages at 4 Use.Execute ≡ true) × (bytes_from mem.old.pages at 4 ≡ word i) × (any_marked mem.old.pages at 4 ≡ false) × (at + 4 ≤ cell) }
{
    let mut bytes = [0; 4];
    let Ok(()) = mem.read(at, &mut bytes, Use::Execute) else {
        return false;
    };
    if mem.mark_was_read() {
        return false;
    }
    if bytes != encode(i).to_le_bytes() {
        return false;
    }
    cell.saturating_sub(at) >= 4
}

/// Whether a pass of the addition of doublewords can begin.
fn can_pass(regs: &Regs, mem: &mut Space<1>) -> bool
    ensures { IsTrue result → CanPass LoopOp.Add true (record { rd = 10; rs1 = 11; rs2 = 12; value = 13; failed = 14 }) regs.now mem.new }
{
    let cell = regs.x[11];
    let first = regs.pc;
    let second = first.wrapping_add(4);
    let third = second.wrapping_add(4);
    let load = Instr::LrD {
        rd: 10,
        rs1: 11,
        order: 0,
    };
    let sum = Instr::Add {
        rd: 13,
        rs1: 10,
        rs2: 12,
    };
    let store = Instr::ScD {
        rd: 14,
        rs1: 11,
        rs2: 13,
        order: 0,
    };
    let again = Instr::Bne {
        rs1: 14,
        rs2: 0,
        imm: -12,
    };
    if !stands(mem, first, load, cell) || !stands(mem, second, sum, cell) {
        return false;
    }
    if !stands(mem, third, store, cell) || !stands(mem, third.wrapping_add(4), again, cell) {
        return false;
    }
    if first % 4 != 0 || cell % 8 != 0 {
        return false;
    }
    mem.can(cell, 8, Use::Read) && mem.can(cell, 8, Use::Write)
}

// A pass finds memory.
#[test]
fn a_pass_is_made(rt: HostRuntime) -> Result<(), Fail> {
    let mut asm = Asm::new(rt.alloc());
    put(&mut asm, LoopOp::Add, true, REGS)?;
    let bytes = asm.finish().ok().expect(&rt, "code");
    let mut room = Room::new();
    let mut mem: Space<1> = Space::new(rt.alloc());
    mem.map(&mut room, 0x1000, 1, ALL)?;
    mem.write(0x1000, bytes.as_slice())?;
    mem.write(CELL, &u64::to_le_bytes(40))?;
    let mut regs = Regs {
        x: [0; 32],
        pc: 0x1000,
    };
    regs.x[11] = CELL;
    regs.x[12] = 2;
    assert!(rt; can_pass(&regs, &mut mem));
    let event = turn(LoopOp::Add, true, REGS, &mut regs, &mut mem);
    assert!(rt; matches!(event, Ok(Event::Next)));
    assert!(rt; (regs.x[10], regs.x[13], regs.pc) == (40, 42, 0x1010));
    let mut cell = [0; 8];
    mem.read(CELL, &mut cell, Use::Read)?;
    assert!(rt; u64::from_le_bytes(cell) == 42);
    Ok(())
}

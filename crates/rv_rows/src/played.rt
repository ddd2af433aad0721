//! What is to be carried out, and what comes of it.

use crate::fault::{Fault, Why};
use crate::number::small;
use crate::outcome::Outcome;
use crate::state::{PAGE, START, State};
use rv_loops::below::{Event, Rights, Room, Space, Use, run, step};
use std::alloc::Global;

/// Where the page begins that can only be read, and where the one begins that can only be written. All
/// their bytes are marked.
const READABLE: u64 = 0x4000;

const WRITABLE: u64 = 0x6000;

/// What is to be carried out.
#[derive(Clone, Copy)]
pub struct Plan {
    pub state: State,
    /// Whether all bytes of the page of the instructions are marked.
    pub marked: bool,
    /// How many instructions are done in the first turn, and how many in the second.
    pub fuel: u32,
    pub again: u32,
}

impl Plan {
    /// Sets what these words say.
    pub fn set<'a>(&mut self, settings: &'a str) -> Result<(), Fault<'a>> {
        for setting in settings.split_whitespace() {
            match setting.split_once('=') {
                None if setting == "marked" => self.marked = true,
                None => return Err(Fault::new(Why::Setting, setting)),
                Some(("fuel", number)) => self.fuel = small(number)?,
                Some(("again", number)) => self.again = small(number)?,
                Some((name, word)) => self.state.set(name, word)?,
            }
        }
        Ok(())
    }

    /// Carries out one instruction.
    pub fn stepped<'a>(&self, alloc: Global) -> Result<Outcome, Fault<'a>> {
        let mut mem = memory(alloc, self)?;
        let mut regs = self.state.regs;
        let mut held = self.state.held;
        let event = step(&mut regs, &mut mem, &mut held)?;
        let read = mem.mark_was_read();
        let page = page_of(&mut mem);
        Ok(Outcome {
            state: State { regs, page, held },
            event,
            done: 1,
            read,
        })
    }

    /// Carries out both turns. What they reserve ends with them.
    pub fn ran<'a>(&self, alloc: Global) -> Result<Outcome, Fault<'a>> {
        let mut mem = memory(alloc, self)?;
        let mut regs = self.state.regs;
        let held = self.state.held;
        let (mut event, mut done) = run(&mut regs, &mut mem, self.fuel)?;
        if matches!(event, Event::Next) {
            let (last, more) = run(&mut regs, &mut mem, self.again)?;
            event = last;
            done = done.saturating_add(more);
        }
        let read = mem.mark_was_read();
        let page = page_of(&mut mem);
        Ok(Outcome {
            state: State { regs, page, held },
            event,
            done,
            read,
        })
    }
}

/// The bytes of the page of the instructions, which can be read.
fn page_of(mem: &mut Space<1>) -> [u8; PAGE] {
    let mut page = [0; PAGE];
    let _ = mem.read(START, &mut page, Use::Read);
    page
}

const ALL: Rights = Rights {
    r: true,
    w: true,
    x: true,
};

const READ: Rights = Rights {
    r: true,
    w: false,
    x: false,
};

const WRITE: Rights = Rights {
    r: false,
    w: true,
    x: false,
};

/// A memory with its three pages.
fn memory<'a>(alloc: Global, plan: &Plan) -> Result<Space<1>, Fault<'a>> {
    let mut room = Room::new();
    let mut mem = Space::new(alloc);
    mem.map(&mut room, START, 1, ALL)?;
    mem.map(&mut room, READABLE, 1, READ)?;
    mem.map(&mut room, WRITABLE, 1, WRITE)?;
    mem.write(START, &plan.state.page)?;
    mem.mark(READABLE, 0x7000);
    if plan.marked {
        mem.mark(START, 0x2000);
    }
    Ok(mem)
}

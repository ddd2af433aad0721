//! What comes out, and what differs of it.

use crate::fault::{Fault, Why};
use crate::number::{NAMES, small};
use crate::state::{START, State};
use rv_loops::below::{Event, Held};
use std::alloc::{AllocError, Global};

/// What comes out.
#[derive(Clone, Copy)]
pub struct Outcome {
    pub state: State,
    pub event: Event,
    /// How many instructions were done, the last of which may be a call or kill.
    pub done: u32,
    /// Whether a marked byte was read.
    pub read: bool,
}

impl Outcome {
    /// What is wanted of a state: that these words say what is different, and the pc is behind as many
    /// instructions as were done, where they don't say it.
    pub fn wanted<'a>(before: State, done: u32, settings: &'a str) -> Result<Outcome, Fault<'a>> {
        let mut wanted = Outcome {
            state: before,
            event: Event::Next,
            done,
            read: false,
        };
        let mut goes_on = true;
        for setting in settings.split_whitespace() {
            match setting.split_once('=') {
                None => wanted.set_flag(setting)?,
                Some(("killed", number)) => wanted.event = killed(number)?,
                Some(("done", number)) => wanted.done = small(number)?,
                Some((name, word)) => {
                    wanted.state.set(name, word)?;
                    goes_on &= name != "pc";
                }
            }
        }
        if goes_on {
            let passed = match wanted.event {
                Event::Next => wanted.done,
                _ => wanted.done.saturating_sub(1),
            };
            let behind = u64::from(passed).wrapping_mul(4);
            wanted.state.regs.pc = before.regs.pc.wrapping_add(behind);
        }
        Ok(wanted)
    }

    fn set_flag<'a>(&mut self, word: &'a str) -> Result<(), Fault<'a>> {
        match word {
            "call" => self.event = Event::Call,
            "read" => self.read = true,
            _ => return Err(Fault::new(Why::Setting, word)),
        }
        Ok(())
    }

    /// What differs from this outcome, which is wanted, in another.
    pub fn differences(&self, alloc: Global, got: &Outcome) -> Result<String, AllocError> {
        let mut told = String::new(alloc);
        let (wanted, found) = (&self.state, &got.state);
        let (event, other) = (word_of(self.event), word_of(got.event));
        if event != other {
            let ((event, signal), (other, killer)) = (event, other);
            write!(told, "{event} {signal} wanted, got {other} {killer}; ")?;
        }
        if self.done != got.done {
            write!(told, "done={} wanted, got {}; ", self.done, got.done)?;
        }
        if self.read != got.read {
            write!(told, "marks read: {} wanted, got {}; ", self.read, got.read)?;
        }
        let (held, other) = (reserved(wanted.held), reserved(found.held));
        if held != other {
            let ((at, width), (place, size)) = (held, other);
            write!(told, "held={at:#x}:{width} wanted, got {place:#x}:{size}; ")?;
        }
        if wanted.regs.pc != found.regs.pc {
            write!(
                told,
                "pc={:#x} wanted, got {:#x}; ",
                wanted.regs.pc, found.regs.pc
            )?;
        }
        let registers = wanted.regs.x.iter().zip(&found.regs.x);
        for (name, (new, old)) in NAMES.iter().zip(registers) {
            if new != old {
                write!(told, "{name}={new:#x} wanted, got {old:#x}; ")?;
            }
        }
        for (place, (new, old)) in wanted.page.iter().zip(&found.page).enumerate() {
            if new != old {
                let at = START.saturating_add(place as u64);
                write!(told, "byte {at:#x}: {new:#x} wanted, got {old:#x}; ")?;
            }
        }
        Ok(told)
    }
}

/// The word of an event, and the signal that kills, or 0.
fn word_of(event: Event) -> (&'static str, u8) {
    match event {
        Event::Next => ("next", 0),
        Event::Call => ("call", 0),
        Event::Killed(signal) => ("killed", signal),
    }
}

/// Where something is reserved, and whether it is a word or a doubleword, or none.
fn reserved(held: Option<Held>) -> (u64, &'static str) {
    match held {
        None => (0, "none"),
        Some(held) => (held.at, if held.wide { "d" } else { "w" }),
    }
}

/// The event of a signal that kills.
fn killed(number: &str) -> Result<Event, Fault<'_>> {
    let signal = u8::try_from(small(number)?).ok();
    Ok(Event::Killed(signal.ok_or(Fault::new(Why::Number, number))?))
}

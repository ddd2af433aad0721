//! What a processor has, and the settings that say it.

use crate::fault::{Fault, Why};
use crate::number::{register, value};
use rv_loops::below::{Held, Regs};

/// Where the page of the instructions begins.
pub const START: u64 = 0x1000;

/// How many bytes a page has.
pub const PAGE: usize = 4096;

/// What a processor has: registers, the page of the instructions, and what is reserved.
#[derive(Clone, Copy)]
pub struct State {
    pub regs: Regs,
    pub page: [u8; PAGE],
    pub held: Option<Held>,
}

/// Puts bytes in the place of others. Answers whether there are as many.
pub fn put(bytes: &mut [u8], at: usize, new: &[u8]) -> bool {
    let Some(places) = bytes.get_mut(at..) else {
        return false;
    };
    if places.len() < new.len() {
        return false;
    }
    for (place, byte) in places.iter_mut().zip(new) {
        *place = *byte;
    }
    true
}

/// What is reserved: an address, `:w` for a word or `:d` for a doubleword, or `none`.
fn reserved(word: &str) -> Result<Option<Held>, Fault<'_>> {
    if word == "none" {
        return Ok(None);
    }
    match word.split_once(':') {
        Some((at, "w")) => Ok(Some(Held {
            at: value(at)?,
            wide: false,
        })),
        Some((at, "d")) => Ok(Some(Held {
            at: value(at)?,
            wide: true,
        })),
        _ => Err(Fault::new(Why::Setting, word)),
    }
}

impl State {
    /// Zeros, but for the pc, and for what stands in the place of register 0 and is read by nothing.
    pub fn new() -> State {
        let mut x = [0; 32];
        x[0] = 99;
        State {
            regs: Regs { x, pc: START },
            page: [0; PAGE],
            held: None,
        }
    }

    /// Sets a doubleword of the page.
    fn set_memory<'a>(&mut self, at: &'a str, number: &'a str) -> Result<(), Fault<'a>> {
        let fault = Fault::new(Why::Address, at);
        let place = value(at)?.checked_sub(START).ok_or(fault)?;
        let place = usize::try_from(place).ok().ok_or(fault)?;
        if !put(&mut self.page, place, &value(number)?.to_le_bytes()) {
            return Err(fault);
        }
        Ok(())
    }

    /// Sets what a name says: `pc`, `held`, an address in brackets or a register.
    pub fn set<'a>(&mut self, name: &'a str, word: &'a str) -> Result<(), Fault<'a>> {
        if name == "pc" {
            self.regs.pc = value(word)?;
            return Ok(());
        }
        if name == "held" {
            self.held = reserved(word)?;
            return Ok(());
        }
        if let Some(rest) = name.strip_prefix('[') {
            let at = rest.strip_suffix(']');
            return self.set_memory(at.ok_or(Fault::new(Why::Setting, name))?, word);
        }
        let fault = Fault::new(Why::Register, name);
        let place = usize::from(register(name)?);
        let Some(x) = self.regs.x.get_mut(place) else {
            return Err(fault);
        };
        *x = value(word)?;
        Ok(())
    }
}

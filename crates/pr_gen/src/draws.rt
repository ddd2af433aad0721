//! The draws of a case.
ghost use Rattle.std.specs.Prelude.{◌≡◌, ◌<◌, IfOk, OnOk};
ghost use Rattle.pr_gen.specs.Draws.{stepped, drawn, length_of, letters, file_bytes, after, after_file};

use rv_asm::below::NoMemory;
use std::alloc::Global;

/// A linear congruential generator of 64 bits, whose highest bits are given.
#[derive(Clone, Copy)]
pub struct Draws {
    pub(crate) state: u64,
}

const FACTOR: u128 = 6_364_136_223_846_793_005;

const STEP: u128 = 1_442_695_040_888_963_407;

/// States are counted up to it.
const MODULUS: u128 = 1 << 64;

/// The first of the 31 bits that are given.
const GIVEN: u32 = 33;

/// How many letters there are.
const LETTERS: u64 = 26;

/// A file has fewer bytes.
const MOST_BYTES: u64 = 64;

impl Draws {
    ghost use Rattle.std.specs.Prelude.{◌≡◌, ◌<◌, IfOk, OnOk};
    ghost use Rattle.pr_gen.specs.Draws.{stepped, drawn, length_of, letters, file_bytes, after, after_file};

    /// A number below a limit.
    pub(crate) fn draw(&mut self, limit: u64) -> u64
        requires { 0 < limit }
        ensures state { self.new.state ≡ stepped self.old.state }
        ensures drawn { result ≡ drawn limit self.new.state }
        ensures below { result < limit }
    {
        let next = (u128::from(self.state) * FACTOR + STEP) % MODULUS;
        self.state = next as u64;
        (self.state >> GIVEN) % limit
    }

    /// Small letters.
    #[tactic(auto, unfolding(crate::specs::Draws::after, crate::specs::Draws::letters))]
    fn letters(&mut self, alloc: Global, count: u64) -> Result<Vec<u8>, NoMemory>
        ensures letters { IfOk result (λ bytes. bytes.items ≡ letters count self.old.state) }
        ensures state { OnOk result (self.new.state ≡ after count self.old.state) }
    {
        let mut bytes = Vec::new(alloc);
        for _k in 0..count {
            let letter = b'a' + self.draw(LETTERS) as u8;
            bytes.push(letter)?;
        }
        Ok(bytes)
    }

    /// The bytes of a file.
    pub(crate) fn file(&mut self, alloc: Global) -> Result<Vec<u8>, NoMemory>
        ensures bytes { IfOk result (λ bytes. bytes.items ≡ file_bytes self.old.state) }
        ensures state { OnOk result (self.new.state ≡ after_file self.old.state) }
    {
        let count = self.draw(MOST_BYTES);
        self.letters(alloc, count)
    }
}

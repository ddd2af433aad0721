//! The registers of a process.

/// The integer registers `x0` to `x31` and the program counter, as the RISC-V unprivileged
/// specification names them. `x0` is read as 0, whatever it holds here.
#[derive(Clone, Copy)]
pub struct Regs {
    pub x: [u64; 32],
    pub pc: u64,
}

//! Loops of LR and SC, as the RISC-V unprivileged specification gives them for what has no AMO: four
//! instructions that load and reserve, compute, store on condition, and begin again where that failed.
//! A pass of such a loop does what the AMO of the same operation does.
//!
//! What is proved, with the clause or the law that carries it:
//!
//! The loops of LR and SC that do what an AMO does.
//!
//! `put` appends the four instructions of a loop, or leaves the program as it was (`ok`, `err`).
//!
//! A pass of a loop (`turn`) leaves the memory, and all registers but its two own, as the AMO of the same operation does, and goes on behind the
//! loop (`memory`, `registers`, `pc`).
//!
//! Only tested, or not shown: `rv_tests` makes a pass by `turn`; the rows of `rv_rows` have the code of loops, and run it by `run`.
#![tactic(auto)]

pub mod below;
mod code;
mod pass;

pub use code::{LoopOp, LoopRegs, put};
pub use pass::turn;

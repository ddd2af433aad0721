//! The processor: one instruction of RV64I or of the extensions M and A after the other, on the
//! registers and the memory of a process. Source: the RISC-V unprivileged specification.
//!
//! What is proved, with the clause or the law that carries it:
//!
//! The processor, RV64I with the extensions M and A, on a memory at every `MARKED`.
//!
//! `step` does one instruction exactly as its equation says: event, registers, reservation and memory (`event`, `regs`, `held`, `memory`; the
//! equations are `executed`, one line for each mnemonic). An atomic operation's old value and what it stores are one step; a failed SC looks at
//! no byte. It kills by signals below 128 alone (`signal`). What is no instruction, a bad address and a misaligned target kill, and leave
//! registers and bytes as they were: so the definition says.
//!
//! `run` does `fuel` instructions, or fewer where one of them is a call or kills, and tells how many (`ran`). It begins without a reservation.
//!
//! An instruction, and so a run, does the same on memories that are equal but for marked bytes, as long as it reads none of these
//! (`steps_are_alike`, `runs_are_alike`).
//!
//! A run that ends with a call leaves the process at it below the last address, where every page lies (`calls_stand_in_pages`).
//!
//! Only tested, or not shown: That the equations are the manual's: the rows of `rv_rows`, for each mnemonic with words of a stock assembler and
//! the manual's edge cases; some of these were also evaluated on the definitions (`proofs/EdgeCases.antt`).
#![tactic(auto)]

mod arithmetic;
mod atomic;
pub mod below;
mod ending;
mod event;
mod execution;
pub mod laws;
mod load;
mod registers;
mod reservation;
mod running;

pub use event::Event;
pub use execution::step;
pub use reservation::Held;
pub use running::run;
pub use rv_mem::Regs;

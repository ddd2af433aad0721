//! An assembler: instructions and data in order, with labels whose distances are put in at the end.
//! Source of the pair that makes an address: the RISC-V assembly programmer's manual, on the
//! pseudoinstruction `lla`.
//!
//! What is proved, with the clause or the law that carries it:
//!
//! An assembler for code with labels.
//!
//! Each call adds exactly its item to the program, `put_all` all of its instructions, and leaves it as it was after want of memory (`ok`, `err`).
//!
//! `finish` answers the program's first fault, Unbound before Far (`fault`), and else its code: each item's bytes in order, with the distances to
//! its labels (`code`, `size`). A short program without branches to labels has no fault (`near`).
//!
//! An item's bytes stand behind those of all items before it, and the two parts of an address add up to its distance (`items_stand_in_order`,
//! `parts_add_up`).
//!
//! Only tested, or not shown: `rv_tests`.
#![tactic(auto)]

mod assembly;
pub mod below;
mod distance;
mod fault;
mod item;
mod laws;
mod program;

pub use fault::AsmFault;
pub use laws::{items_stand_in_order, parts_add_up};
pub use program::Asm;

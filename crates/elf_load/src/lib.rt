//! A program in memory: the segments of an accepted ELF file, the first stack, and the registers with
//! which the program starts.
//! Source: the ELF-64 object file format, its chapter on program loading; the System V ABI and its
//! RISC-V supplement on the initial process stack. Where the parts lie, and the limits, are the
//! project's own.
//!
//! What is proved, with the clause or the law that carries it:
//!
//! A program as it starts, over any number of marks and any environment.
//!
//! `load` answers TooManyArgs exactly past the limits of arguments (`args`), and else TooManyPages exactly past the limits of pages (`pages`,
//! `within`): the pages are counted from the plan before memory is taken.
//!
//! The memory is the definition's image, registers and brk are the definition's (`memory`, `regs`, `brk`). The same address by address: in the
//! pages of each segment its bytes of the file stand at its address, every other byte is zero, each address has the segment's rights, and from
//! the stack pointer up stand the bytes of the first stack (`segments`, `stack`).
//!
//! The room is raised by exactly the image's pages, and after a refusal it is as before (`room`, `err_room`).
//!
//! Only tested, or not shown: `rv_tests`.
#![tactic(auto)]

mod arguments;
pub mod below;
mod fault;
mod image;
pub mod laws;
mod segments;
mod stack;

pub use fault::LoadFault;
pub use image::{Image, load};
pub use stack::Pair;

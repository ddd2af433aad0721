//! What those above name of the crates below.

pub use rv_asm::below::{Instr, decode, encode, valid};
pub use rv_asm::{Asm, AsmFault};
pub use rv_cpu::below::pr_base::NoMemory;
pub use rv_cpu::below::rv_mem::{
    BadAddress, MapFault, PAGES_END, Rights, Room, Space, StoreFault, TextFault, Use,
};
pub use rv_cpu::{Event, Held, Regs, run, step};

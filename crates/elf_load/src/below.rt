//! What those above name of the crates below.

pub use elf_read::{ElfFault, Segment, check};
pub use rv_mem;
pub use rv_mem::below::pr_base;

//! What those above name of the crates below.

pub use rv_table::below::pr_base::{Bind, Bytes, NoMemory, PAGE_SIZE, Texts};
pub use rv_table::{Instr, decode, encode, valid};

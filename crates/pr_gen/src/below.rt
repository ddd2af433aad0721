//! What those above name of the crates below.

pub use elf_write;
pub use kr_text::below::kr_tree::{Ino, Meta, Node, ROOT, Tree, TreeRefusal, User, is_name};
pub use kr_text::{ListFault, TreeWhy, read, write};
pub use rv_asm::below::{Bytes, NoMemory, Texts};

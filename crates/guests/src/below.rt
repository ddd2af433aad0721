//! What those above name of the crates below.

pub use pr_gen::below::{
    Bytes, Ino, ListFault, Meta, NoMemory, Node, ROOT, Tree, TreeRefusal, TreeWhy, User, elf_write,
    is_name, read, write,
};

//! What those above name of the crates below.

pub use elf_load::below::pr_base::limits::{PATH_MAX, SHELF};
pub use elf_load::below::pr_base::{Bytes, Errno, NoMemory, Texts};
pub use elf_load::below::rv_mem::Use;
pub use kr_exec::find_exec;
pub use pt_ident::Identities;
pub use pt_ident::below::kr_inode::User;

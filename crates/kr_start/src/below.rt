//! What those above name of the crates below.

pub use elf_load::below::pr_base::{Bytes, Errno, NoMemory, Texts, WalkMode, is_walked};
pub use elf_load::below::rv_mem::Room;
pub use elf_load::{Image, LoadFault, load};
pub use kr_ops::State;
pub use kr_ops::below::Plain;
pub use kr_text::below::kr_tree::laws::trees_are_kept;
pub use kr_text::below::kr_tree::{Host, Ino, Kind, Place, ProcAt, Right, Tree, User};
pub use kr_text::{ListFault, TreeWhy, read, wants_elf, write};
pub use law_walks::below::{BindFault, BindWhy, MountNumber, Mounted};

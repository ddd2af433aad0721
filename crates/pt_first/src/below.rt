//! What those above name of the crates below.

pub use kr_first::below::{Host, Place, Right, Tree, User};
pub use pr_words::below::{Bytes, Errno, NoMemory, Texts, is_walked};
pub use pr_words::{
    Launch, Options, arguments, candidate, directories, has_slash, path_of, word_of,
};

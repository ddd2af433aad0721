//! What those above name of the crates below.

pub use kr_view::below::FILE_LIMIT;
pub use kr_view::below::kr_tree::laws::{directories_have_host_names, trees_are_kept};
pub use kr_view::below::kr_tree::{
    Kind, Meta, Node, ROOT, Right, Tree, TreeRefusal, User, is_name,
};
pub use kr_view::below::pr_base::limits::{
    AT_FDCWD, DESCRIPTORS, MODES, MOST_PIECES, PIPE_BYTES, SHELF,
};
pub use kr_view::below::pr_base::{
    AtFlags, BaseKind, Bytes, Errno, Last, NoMemory, OpenFlags, PAGE_SIZE, PeekFault, PeekKind,
    Peeks, WalkMode, components,
};
pub use kr_view::laws::plain_stands;
pub use kr_view::{
    Host, HostMount, Ino, MountRow, NoProcs, Place, Places, Plain, Procs, Reach, Target, WalkFault,
};

//! What those above name of the crates below.

pub use kr_ops::below::{
    BadAddress, Descs, Files, FilesRefusal, Host, HostMount, Ino, Kind, Lead, MapFault, Meta,
    MountRow, Moved, Node, Opened, Outcome, PAGES_END, Place, Places, Plain, ProcAt, Procs, ROOT,
    Reach, Regs, Request, Right, Rights, Space, Stat, StoreFault, Target, Tree, TreeRefusal, Use,
    User, WalkFault, What, dirent_bytes, has_path, proc_inode, proc_name, proc_serial, stat_bytes,
    trees_are_kept,
};
pub use kr_ops::laws::lawful_states_are_sound;
pub use kr_ops::{EndedProcess, Meant, State};
pub use kr_walk::below::{
    AT_FDCWD, AtFlags, BaseKind, Bytes, DESCRIPTORS, Errno, FILE_LIMIT, Last, MODES, MOST_PIECES,
    NoMemory, NoProcs, OpenFlags, PAGE_SIZE, PIPE_BYTES, PeekFault, PeekKind, Peeks, SHELF,
    WalkMode,
};
pub use kr_walk::resolve;

//! What those above name of the crates below.

pub use kr_calls::below::pr_base::limits::DESCRIPTORS;
pub use kr_calls::below::pr_base::{Bytes, NoMemory, Peeks, WalkMode};
pub use kr_calls::below::rv_mem::{
    ALL_PAGES, BadAddress, MapFault, PAGES_END, Regs, Rights, Room, Space, StoreFault, Use,
};
pub use kr_calls::{
    CallFault, PathArg, Request, Stat, decode, dirent_bytes, has_path, path_of, script_line,
    stat_bytes,
};
pub use kr_files::below::kr_tree::laws::trees_are_kept;
pub use kr_files::below::kr_tree::{
    Host, Ino, Kind, Meta, Node, Place, ProcAt, ROOT, Right, Tree, TreeRefusal, User, is_name,
};
pub use kr_files::{Descs, Files, FilesRefusal, Moved, Opened, What, Wrote};
pub use kr_procfs::below::kr_view::{
    HostMount, Lead, MountRow, NoProcs, Places, Plain, Procs, Reach, Target, WalkFault,
};
pub use kr_procfs::{number_of, pipe_text, proc_inode, proc_name, proc_serial};

//! What those above name of the crates below.

pub use kr_model::Outcome;
pub use kr_model::below::{
    ALL_PAGES, BadAddress, Bytes, CallFault, DESCRIPTORS, Descs, Files, FilesRefusal, Host,
    HostMount, Ino, Kind, Lead, MapFault, Meta, MountRow, Moved, NoMemory, NoProcs, Node, Opened,
    PAGES_END, PathArg, Peeks, Place, Places, Plain, ProcAt, Procs, ROOT, Reach, Regs, Request,
    Right, Rights, Room, Space, Stat, StoreFault, Target, Tree, TreeRefusal, Use, User, WalkFault,
    WalkMode, What, Wrote, decode, dirent_bytes, has_path, is_name, number_of, path_of, pipe_text,
    proc_inode, proc_name, proc_serial, script_line, stat_bytes, trees_are_kept,
};

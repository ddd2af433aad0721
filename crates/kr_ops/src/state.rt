//! The state of a kernel.

use law_lawful::below::{Bytes, Descs, Files, Ino, Place, Regs, Room, Space, Tree, User};

/// A living process. `T` tells mounts apart, and `M` is not 0 where the marks of bytes are kept.
#[derive(Drop)]
pub struct Process<T, const M: u8> {
    pub pid: u32,
    pub parent: u32,
    pub regs: Regs,
    pub mem: Space<M>,
    /// Where the break began, as brk(2) knows it, and where it is.
    pub brk_start: u64,
    pub brk: u64,
    pub descs: Descs,
    pub cwd: Place<T>,
    pub exe: Place<T>,
    /// The entry that the executable remembers; an empty name where it has none.
    pub exe_dir: Ino,
    pub exe_name: Bytes,
    pub umask: u16,
    /// Whether it stays at a call that waited.
    pub waits: bool,
}

/// A process that ended and wasn't waited for.
#[derive(Clone, Copy)]
pub struct EndedProcess {
    pub pid: u32,
    pub parent: u32,
    /// The word that wait4(2) writes.
    pub status: u32,
}

/// The state of a kernel.
#[derive(Drop)]
pub struct State<T, const M: u8> {
    pub tree: Tree,
    pub user: User,
    pub files: Files<T>,
    /// The pages that all processes have, of those that there may be.
    pub room: Room,
    pub input: Bytes,
    /// How many bytes of the input were read.
    pub taken: u64,
    pub out: Bytes,
    pub err: Bytes,
    /// In order of their numbers, as the ended ones.
    pub living: Vec<Process<T, M>>,
    pub ended: Vec<EndedProcess>,
    pub next_pid: u32,
}

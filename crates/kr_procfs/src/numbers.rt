//! Inode numbers and serials.
ghost use Rattle.std.specs.Prelude.{◌≡◌};
ghost use Rattle.kr_procfs.specs.Objects.{base, inode_number, serial};

use kr_view::below::kr_tree::ProcAt;

/// The number of the link `self`; all processes have greater ones.
const SELF: u64 = 1 << 40;

/// The first number of the process 0.
const PROCESSES: u64 = 1 << 41;

/// How many numbers each process has.
const EACH: u64 = 8192;

/// The first number of a process, that of its directory.
fn base(pid: u32) -> u64
    ensures { result ≡ base pid }
{
    PROCESSES + EACH * pid as u64
}

/// An object's inode number, in the field `ino` of stat(2) and of getdents64(2).
pub fn proc_inode(at: ProcAt) -> u64
    ensures { result ≡ inode_number at }
{
    match at {
        ProcAt::SelfLink => SELF,
        ProcAt::Dir(pid) => base(pid),
        ProcAt::Cwd(pid) => base(pid) + 1,
        ProcAt::Root(pid) => base(pid) + 2,
        ProcAt::Exe(pid) => base(pid) + 3,
        ProcAt::FdDir(pid) => base(pid) + 4,
        ProcAt::Fd(pid, fd) => base(pid) + 16 + fd as u64,
    }
}

/// An object's serial among the entries of its directory, behind those of `.` and `..`.
pub fn proc_serial(at: ProcAt) -> u64
    ensures { result ≡ serial at }
{
    match at {
        ProcAt::SelfLink | ProcAt::Cwd(_) => 3,
        ProcAt::Dir(pid) => 8 + pid as u64,
        ProcAt::Root(_) => 4,
        ProcAt::Exe(_) => 5,
        ProcAt::FdDir(_) => 6,
        ProcAt::Fd(_, fd) => 3 + fd as u64,
    }
}

//! The calls of a guest.

use rv_mem::below::pr_base::Bytes;

/// A call with its arguments, under the names of its manual page in section 2. Numbers of descriptors and
/// processes, modes and flags have 32 bits; addresses, lengths and the flags of `clone` and `mmap` have 64.
#[derive(Drop)]
pub enum Request {
    Getcwd {
        buf: u64,
        size: u64,
    },
    Dup {
        fd: i32,
    },
    Dup3 {
        old: i32,
        new: i32,
        flags: u32,
    },
    Fcntl {
        fd: i32,
        cmd: i32,
        arg: u64,
    },
    Ioctl {
        fd: i32,
    },
    Mkdirat {
        dirfd: i32,
        path: Bytes,
        mode: u32,
    },
    Unlinkat {
        dirfd: i32,
        path: Bytes,
        flags: u32,
    },
    /// The text of the link comes before its place.
    Symlinkat {
        text: Bytes,
        dirfd: i32,
        path: Bytes,
    },
    Linkat {
        olddir: i32,
        old: Bytes,
        newdir: i32,
        new: Bytes,
        flags: u32,
    },
    /// `len` is read with its sign.
    Ftruncate {
        fd: i32,
        len: u64,
    },
    Faccessat {
        dirfd: i32,
        path: Bytes,
        mode: u32,
    },
    Chdir {
        path: Bytes,
    },
    Fchdir {
        fd: i32,
    },
    Chroot {
        path: Bytes,
    },
    Fchmod {
        fd: i32,
        mode: u32,
    },
    Fchmodat {
        dirfd: i32,
        path: Bytes,
        mode: u32,
    },
    /// With `AtFlags::EMPTY_PATH` the path may be empty. A number of all ones leaves the one that is there.
    Fchownat {
        dirfd: i32,
        path: Bytes,
        uid: u32,
        gid: u32,
        flags: u32,
    },
    Fchown {
        fd: i32,
        uid: u32,
        gid: u32,
    },
    /// The flags are those that were given, unknown ones among them.
    Openat {
        dirfd: i32,
        path: Bytes,
        flags: u32,
        mode: u32,
    },
    Close {
        fd: i32,
    },
    Pipe2 {
        buf: u64,
        flags: u32,
    },
    Getdents64 {
        fd: i32,
        buf: u64,
        n: i32,
    },
    Lseek {
        fd: i32,
        off: i64,
        whence: i32,
    },
    Read {
        fd: i32,
        buf: u64,
        n: u64,
    },
    Write {
        fd: i32,
        buf: u64,
        n: u64,
    },
    Readv {
        fd: i32,
        list: u64,
        count: u64,
    },
    Writev {
        fd: i32,
        list: u64,
        count: u64,
    },
    Readlinkat {
        dirfd: i32,
        path: Bytes,
        buf: u64,
        size: i32,
    },
    /// With `AtFlags::EMPTY_PATH` the path may be empty.
    Newfstatat {
        dirfd: i32,
        path: Bytes,
        buf: u64,
        flags: u32,
    },
    Fstat {
        fd: i32,
        buf: u64,
    },
    Exit {
        code: i32,
    },
    ExitGroup {
        code: i32,
    },
    SetTidAddress,
    RtSigaction,
    RtSigprocmask,
    Setregid {
        rgid: u32,
        egid: u32,
    },
    Setgid {
        gid: u32,
    },
    Setreuid {
        ruid: u32,
        euid: u32,
    },
    Setuid {
        uid: u32,
    },
    Setresuid {
        ruid: u32,
        euid: u32,
        suid: u32,
    },
    /// The addresses where the three numbers are written.
    Getresuid {
        ruid: u64,
        euid: u64,
        suid: u64,
    },
    Setresgid {
        rgid: u32,
        egid: u32,
        sgid: u32,
    },
    /// The addresses where the three numbers are written.
    Getresgid {
        rgid: u64,
        egid: u64,
        sgid: u64,
    },
    Getgroups {
        size: i32,
        list: u64,
    },
    Setgroups {
        size: i32,
        list: u64,
    },
    Uname {
        buf: u64,
    },
    Umask {
        m: u32,
    },
    Getpid,
    Getppid,
    Getuid,
    Geteuid,
    Getgid,
    Getegid,
    Gettid,
    Brk {
        a: u64,
    },
    Munmap {
        a: u64,
        len: u64,
    },
    Clone {
        flags: u64,
        sp: u64,
        ctid: u64,
    },
    /// `args` and `env` are the addresses of lists.
    Execve {
        path: Bytes,
        args: u64,
        env: u64,
    },
    Mmap {
        a: u64,
        len: u64,
        prot: u64,
        flags: u64,
    },
    Mprotect {
        a: u64,
        len: u64,
        prot: u64,
    },
    Wait4 {
        pid: i32,
        status: u64,
        options: i32,
        usage: u64,
    },
    /// The fifth argument of the call is 0.
    Renameat2 {
        olddir: i32,
        old: Bytes,
        newdir: i32,
        new: Bytes,
    },
}

//! Limits that several crates speak of, with the page of the manual where one has them.

/// How many descriptors a process may have, which are numbered from 0 on: RLIMIT_NOFILE of getrlimit(2).
pub const DESCRIPTORS: u32 = 1024;

/// How many bytes a pipe holds at most: its capacity in pipe(7).
pub const PIPE_BYTES: usize = 65_536;

/// The most pieces of a list of readv(2) and writev(2), IOV_MAX.
pub const MOST_PIECES: u64 = 1024;

/// How many bytes a path or another text has at most, its zero among them: PATH_MAX of limits.h(0p).
pub const PATH_MAX: usize = 4096;

/// How many links a walk follows at most: path_resolution(7).
pub const MOST_LINKS: u32 = 40;

/// The most arguments of a program, and the most texts of its environment: execve(2).
pub const MOST_TEXTS: usize = 4096;

/// The most bytes of arguments and environment together, with an end for each text: execve(2).
pub const MOST_BYTES: usize = 131_072;

/// How many bytes below a process's stack pointer are its shelf, on which a tracer puts texts.
pub const SHELF: u64 = 65_536;

/// The largest number of a user or group. The one above it leaves an owner as it is: chown(2).
pub const LARGEST_ID: u32 = 4_294_967_294;

/// How many modes differ in permissions alone, the twelve bits that chmod(2) takes: the rights, and three bits above them. What is above
/// them in the mode that stat(2) tells is the kind of a file.
pub const MODES: u32 = 0o10000;

/// The number that stands for the working directory in place of a descriptor: openat(2).
pub const AT_FDCWD: i32 = -100;

//! How the first process of a kernel comes to be: execve(2) of a program before a process lives, and the state that begins with it.
//!
//! What is proved, with the clause or the law that carries it:
//!
//! The start of a run, which is execve(2) before a process lives, over kr_start, kr_exec and the loader. kr_core takes it up.
//!
//! `start` comes to exactly the definition, want of memory aside (`answer`; the definition is `start_of`). Either it is the state in which each
//! source of a mount is held once, the console has its input, and the first process has the program in its memory, its working directory, its
//! executable and the entry that this remembers. Or it is the error of execve(2): ENOENT and ENAMETOOLONG of the path, those of its walk, EACCES,
//! E2BIG of the lists, those of scripts and of ELF files, and ENOMEM last.
//!
//! The state is lawful for the view and has what lasts from call to call, so that calls can go on (`runs`). What the walks reach, to the working
//! directory, to the program and to interpreters, is told exactly (`reach`; `start_reach`).
//!
//! It asks for a tree that nothing holds and that can last, in which the mounts stand, for mounts whose sources have good names, a path that is a
//! text, a working directory that is a directory, and that a process has a size in memory. `directory_at` tells exactly whether a path leads to a
//! directory; the root is one (`roots_are_directories`).
//!
//! Only tested, or not shown: `rows` start the hello file and are refused with each error of a start that a guest's file or name can give.
#![tactic(auto)]

pub mod below;
mod finding;
pub mod laws;
mod loading;
mod starting;

pub use finding::directory_at;
pub use starting::{First, StartFault, Started, start};

//! execve(2) in a running process: a program that is found by a path takes the place of the caller's.
//!
//! What is proved, with the clause or the law that carries it:
//!
//! execve(2) in a running process, over kr_exec, the loader and a state of kr_ops. kr_turns takes it up.
//!
//! `execute` comes to exactly the definition, want of memory aside (`Leaves`; the definition is `execution`): the error of the walk, EACCES, the
//! errors of the lists, of scripts and of ELF files, and ENOMEM last, for which the pages of the caller's old memory still count among those of
//! all; or a new program in the caller's place. Then the image is new, the executable and the entry that it remembers are, and descriptors that a
//! new program doesn't get are closed; umask, working directory and all other descriptors stay.
//!
//! What is refused changes nothing; what was read of the caller's memory is noted there in each case, and of the memory that a new program
//! replaces it is told whether a marked byte was read (`Executed::Replaced`, `marks_read`). What the walks reach, those to interpreters too, is
//! told exactly.
//!
//! It asks for a lawful state with texts in its links, a living caller, a path that is a text of bytes, and mounts whose sources have good names.
//! What lasts of that state lasts, a call later, and what the code keeps beside its meaning stays kept.
//!
//! Only tested, or not shown: That it has memory enough where there is enough: `rows` (each of its errors in their order, scripts, what stays and
//! what is new).
#![tactic(auto)]

pub mod below;
mod executing;
mod finding;
mod loading;
mod marks;
mod reading;

pub use executing::{Executed, execute};
pub use marks::marks_read;

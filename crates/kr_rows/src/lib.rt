//! Calls of a guest, carried out on the state of a kernel.
//!
//! What is proved, with the clause or the law that carries it:
//!
//! Calls without a path that move no bytes of files, carried out on a state of kr_ops: on descriptors, on processes and their ends, on pages, on
//! the numbers of the user, and uname. A module for each subject has a function for each call.
//!
//! Each answers the outcome of its row and leaves what the row's reply makes of the state (`Performs`): the caller's memory as the row left it,
//! and then the reply's changes. After want of memory nothing is promised. What the code keeps beside a state's meaning stays kept (`served`).
//!
//! Beside a sound state, clone and pipe2 ask that the numbers of processes, open files and pipes aren't used up, exit asks for a state that is
//! lawful for some view, brk for a break that isn't past the last page, and dup3 for two different numbers.
//!
//! Only tested, or not shown: `rows`, and whole runs.
#![tactic(auto)]

pub mod answer;
pub mod below;
pub mod descriptors;
pub mod ending;
pub mod fcntl;
pub mod forking;
pub mod identity;
pub mod memory;
pub mod processes;
pub mod seeking;
pub mod system;
